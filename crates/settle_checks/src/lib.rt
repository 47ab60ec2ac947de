//! Checks over the records of a run that is over, by which its report is whole or cut as `settle_meaning` says, beside those
//! over their summaries, which `crate::summing` has.
//!
//! Each function answers whether one clause holds, and may be wrong in one way alone: what it answers with `true` holds.
//! They look at records, the system and the script, and at nothing of how the run went. So no schedule can deceive them.
//! No check looks at the values of an event.
#![tactic(auto)]

pub mod account;
mod end;
mod entries;
mod gathered;
mod heard;
mod laws;
mod living;
mod names;
mod numbers;
mod outputs;
mod summing;
mod targets;

pub use account::{Ending, compare, counts_of, end_of_run, summaries_of};
pub use end::transitions_in;
pub use gathered::{Counted, Fixed};
pub use heard::all_heard;
pub use outputs::{Outline, Tally};
pub use summing::{Course, Creating, Fate, Flows, Sending, Taking, Way, some_memory};
