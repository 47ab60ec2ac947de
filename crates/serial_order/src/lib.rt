//! The serial order of a run (Z.101: system, agent), as definitions with their laws.
//!
//! `Global` is the whole of a run between two steps, and `Execution` one list of all that happens in it. `Report` says
//! when a report is that of a serial run; what follows of it for each instance, its port, its senders and its times is
//! told by laws.
#![tactic(auto)]

pub mod laws;
