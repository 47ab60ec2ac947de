//! The owner's calls of an input port (Z.101, Z.102: input port, save, timers), whatever stands behind the port.
//!
//! `Inbox` is what an instance does with its port: it takes, sets and resets timers, asks for them, and stops. `Alone`
//! is the port of one thread as an inbox, which is its own sender. Entries are what goes into a port: signals, and the
//! expiries of timers that were set, each with the fuse that its set made.

mod alone;
mod calls;
mod entry;
pub mod fused;
mod placed;
mod put_count;
mod sender_number;

pub use alone::Alone;
pub use calls::Inbox;
pub use entry::{Entry, Fuse};
pub use placed::{Gone, Placed};
pub use put_count::PutCount;
pub use sender_number::SenderNumber;
