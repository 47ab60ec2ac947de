//! The account of a run whose records are closed: the records are compared with what was put, and each port gathers the
//! senders of all places and is counted (Z.101: system; Z.102: output, create).
//!
//! The environment has the place 0, and the record k the place k + 1. `compare` looks at the records, and at how many
//! signals the senders of each place have put. `counts_of` lets the ports gather the senders then, and `end_of_run` gives
//! the time at the end. What they let pass is so; else they answer Lost, with the number of the instance at which something
//! is missing. `laws` says where the counts lead.

mod comparing;
mod counting;
mod ending;
mod hearing;
pub mod laws;
mod look;
mod looking;
mod ordering;
mod putting;
mod records;
mod routing;
mod sending;
mod summing;

pub use comparing::compare;
pub use counting::counts_of;
pub use ending::{Ending, end_of_run};
pub use looking::summaries_of;
