//! A serial run of a system (Z.101: system, agent), on one thread.
//!
//! `run_serial` makes the steps of all instances in sweeps by ascending number, lets the clock move only where all
//! rest, expires the timers that are due then in their order, and hears the script's lines of that time in theirs: so
//! do the sweeps (`serial_sweeps`). A step of an instance is made here, and what it does to others is done behind it. The
//! report is that of one execution, of all that happens (`serial_order`). `run_serial_heard` does the same, and lets a
//! listener hear how far it is; `run_serial_noted` also keeps whose events it tells, one after the other.
//!
//! `Instances` has the instances by ascending number, each with a port of its own, and who of them lives. An act that one
//! of them does in a step, the expiry of a timer, a line of the script, a new instance and one that has ended: each makes
//! of the instances what the serial order says, and they stay those of a run, in which each that may have something to do
//! is noted. How a run begins with them and how their records are closed stands there too. Fuses by which no timer runs
//! any more may be gone before they expire: that they make no difference, `Thinned` says.
#![tactic(auto)]

mod doing;
mod instances;
mod listener;
mod living;
mod run;
mod spent;
mod step;
mod stepping;
mod world;

pub use instances::Instances;
pub use listener::{Listener, Nobody};
pub use run::{SerialRun, run_serial, run_serial_heard, run_serial_noted};
pub use run_record::RunError;
pub use world::{Effect, Effects};
