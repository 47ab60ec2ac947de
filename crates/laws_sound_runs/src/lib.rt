//! A run stays within its process. Expressions that are resolved are sound: their variables and timers are there, with
//! as many values as they take, and what they come to is of the sort that their place asks for (Z.104: expressions).
//! Where each `nextstate` of a process leads to one of its states, a run of it never comes to one that doesn't (Z.102:
//! nextstate).
//!
//! Laws of the definitions alone, as functions that do nothing. `HasKind` says of which kind a term is, `IsSoundScope`
//! that names stand for what is there, and `LeadsToStates` what a behaviour has to keep, over the paths through its
//! bodies.
#![tactic(auto)]

pub mod laws;
pub mod terms;
pub mod values;
