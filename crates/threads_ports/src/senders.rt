//! The sending side of an instance in a run on threads (Z.101: input port; Z.102: output, timer).
//!
//! `Peers` has a sender into the port of each instance, from the first signal on that finds a port there. A put looks
//! it up once; if there is none, the signal comes back (`NotPut`). By the contract of each call, what was put into a
//! port stays the end of what a record sends there, where it is so before: a signal is put, and then its output is
//! recorded. `laws` has where it leads, once a port has gathered its senders.
//!
//! Once nobody puts anything any more, each sender is gathered at its port, and a row notes whose it was, its number
//! there and how many signals it put. `specs/Rows` says when such rows hold, and `counts` what they tell once the port
//! has drawn no more signals than they count.

pub mod counts;
pub mod laws;
mod not_put;
mod peer;
mod peers;
mod run;

pub use not_put::NotPut;
pub use peer::Peer;
pub use peers::Peers;
pub use run::Run;
