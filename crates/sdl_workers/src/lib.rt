//! The runs of a system (Z.101: system, agent): on one thread, and on several.
//!
//! `run_serial` runs on one thread, in a fixed order. `run` runs on several: workers make the steps in any order, and
//! time moves only where nobody can act. Its report is whole, or cut at the limit, and nothing was lost between
//! threads. `run_with_course` keeps beside the report what tells the one order of all.
#![tactic(auto)]

mod naming;
mod stack;
mod threaded;
mod watch;

pub use run_record::RunError;
pub use serial_run::run_serial;
pub use settle_run::Settled;
pub use threaded::{run, run_with_course};
pub use threads_workers::{Gate, Open};
pub use watch::{Stage, Watch};
