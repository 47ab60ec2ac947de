//! How an instance is closed once all threads of a run are joined, and what its record is then (Z.101: agent; Z.102:
//! timer).
//!
//! `close` makes the last step of an instance, by which it shows that it rests, and closes its record. A `Closing` is
//! what is left: the record, the port, and the senders, and its type keeps what is known of them. Once all that was put
//! is drawn, `ends_as` tests whether the record closes as it is to; then it has a history of its port: `laws` says so.
#![tactic(auto)]

mod closing;
mod ending;
mod last_step;
pub mod laws;

pub use closing::Closing;
pub use ending::{PortThen, ends_as};
pub use last_step::close;
