//! The settling of a run on threads: its report is whole or cut, and nothing was lost between threads (Z.101: system).
//!
//! `settle` goes on with the run on the calling thread until it is over, closes all records and gives the report. Several
//! threads look at the records.
//! `report_of` is the last part of it: whatever it is given, its report is settled, or it answers Lost with the number of
//! an instance at which something is missing.
#![tactic(auto)]

mod course;
mod gifts;
mod parts;
mod ports;
mod report;
mod settled;
mod settling;

pub use report::report_of;
pub use settle_checks::Ending;
pub use settled::Settled;
pub use settling::settle;
