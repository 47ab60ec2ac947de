//! The end of a run on threads, on one thread (Z.101: system, agent).
//!
//! After the joins the calling thread alone has the run. `run_rest` goes on with it as a serial run does: by the sweeps
//! of `serial_sweeps`, over the instances in their slots, with the ports that they share (`threads_shared`) and the
//! environment that drove the threads (`threads_shared`). No clause says how the run goes from there. What holds of
//! each record is in the types of the instances and of the environment, as it was on threads, and what came of all of
//! them is checked once they are closed. Tests compare a run that was made so from its start with the serial one.
#![tactic(auto)]

mod begin;
mod instances;
mod run;
mod step;
mod waking;

pub use run::run_rest;
