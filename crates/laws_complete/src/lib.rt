//! What breaks no rule has a meaning: names, expressions, statements, transitions, states and processes.
//!
//! Laws of the definitions alone, as functions that do nothing. `build` stands on them where it says that a
//! specification in which no rule is broken has a system.
#![tactic(auto)]

pub mod expressions;
pub mod names;
pub mod processes;
pub mod ranges;
pub mod transitions;
