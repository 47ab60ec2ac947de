//! What a process does in which no rule is broken is sound (Z.101: process; Z.102: transition): its bodies and its
//! states name what is there, values fit their places, transitions lead to states, and the start comes to no
//! `nextstate -`.
//!
//! Laws of the definitions alone, as functions that do nothing. `IsTypedBody` says what holds of each statement,
//! `IsSoundContext` that names stand for what is there.
#![tactic(auto)]

pub mod bodies;
pub mod processes;
