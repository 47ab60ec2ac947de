//! The sweeps of a serial run (Z.101: system, agent), whatever the instances are that make its steps.
//!
//! `Scheduler` says whose turn it is, when the clock moves, which fuses expire then and which lines are heard, and when
//! the run is at its end. What an instance's step does, and where a signal goes, is the part of `InstanceSet`: so a run
//! whose instances have ports of their own and the end of a run on several threads, whose instances have shared ones,
//! are one code. What a run comes to is said in the words of the trait: each implementation chooses what leads from one
//! moment to another, and the sweeps keep it.
#![tactic(auto)]

mod agenda;
mod bits;
mod instance_set;
mod order;
mod ready_set;
mod scheduler;
mod time;

pub use agenda::Agenda;
pub use instance_set::{InstanceSet, Made};
pub use ready_set::ReadySet;
pub use scheduler::Scheduler;
