//! The limits of what is built: how large a specification may be.
//!
//! Each limit is a number in `specs/Limits`, and is noted at the first word past it. `specs/Broken` says when a limit is
//! passed, and `laws` that the list of faults says the same.
#![tactic(auto)]

pub mod laws;
mod limits;

pub use limits::note_limits;
