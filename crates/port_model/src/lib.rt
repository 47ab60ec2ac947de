//! The input port of an SDL agent (Z.101, Z.102: input port, save, timers, priority input).
//!
//! `specs/` defines what a port is and what a put, an expiry, a take, a set, a reset and a stop make of it. `PlainPort`
//! is a port for one thread, and each of its calls is exactly the step of that name.
#![tactic(auto)]

mod backlog;
mod course;
mod deadline;
mod error;
mod got;
pub mod inbox;
pub mod laws;
mod passed;
mod places;
mod plain_port;
mod refused;
mod search;
mod selection;
mod taken;
mod timer;
mod timers;
mod values;
mod wanted;

pub use course::{Course, CourseLog, KeptWords, SenderInto};
pub use error::PortError;
pub use got::Got;
pub use inbox::{Alone, Entry, Fuse, Gone, Inbox, Placed, PutCount, SenderNumber};
pub use plain_port::{PlainPort, PortParts};
pub use refused::Refused;
pub use selection::{Class, Selection};
pub use taken::Taken;
pub use timers::Timer;
pub use values::{Arm, Item, Pid, SignalId, Ticks, TimerKey, Value, Values};
