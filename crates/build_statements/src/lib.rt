//! The statements of a transition with their names resolved: tasks, outputs, timers, creates, and what ends it (Z.101
//! and Z.102: action, terminator).
//!
//! `specs/Statements` says what each statement does, and `specs/Faulty` which rules it breaks. Each function notes
//! exactly the faults of its statement, and gives what it does where nothing in it is refused.
#![tactic(auto)]

mod applied;
mod context;
mod create;
mod list;
mod nodes;
mod output;
mod task;
mod terminator;
mod timer;

pub use context::Context;
pub use nodes::{NodeTable, add};
