//! The ports of a run on threads, and what belongs to each: its desk, its owner and its senders (Z.101: input port).
//!
//! The name of a run says which port is of which number. `Ports` has a port for each of the numbers 1 to 1,000, and
//! what it hands out under a number, the port, its owner or a sender, is of the port of that number. The desks and the
//! owners are under a lock each, and their types say the same, so it holds whatever thread asks. An owner is given out
//! once: from then on there is none of that number under the lock (`laws`).
//!
//! `Numbers` and `NumberSeat` are the table and a seat of the run's name: two that have the same name fit each other.
#![tactic(auto)]

pub mod birth;
mod desks;
pub mod instances;
pub mod laws;
mod numbers;
mod owners;
mod ports;
mod senders;
mod site;

pub use birth::NewPorts;
pub use instances::{Entered, Entries, Full, Roster, Seat, Table};
pub use numbers::{NumberSeat, Numbers};
pub use ports::Ports;
pub use senders::{NotPut, Peer, Peers, Run};
