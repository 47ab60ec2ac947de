//! What `build` makes is sound (Z.101: system): each number in it is that of something, values fit their places, and
//! transitions lead to states.
//!
//! Laws of the definitions alone, as functions that do nothing. They speak of each system that is what a specification
//! says, and of each behaviour that the text of a process has.
#![tactic(auto)]

pub mod laws;
