//! The instances of a run on threads (Z.101: agent; Z.102: output, timer).
//!
//! A `ThreadInstance` is an instance with its senders, in its seat: of the run's system, and with the port of its
//! number. Where its process means something, what was put into the port of another instance is the end of what its
//! record sends there, in that order, and from the first put on all of it. Its record is that of a run which begins
//! with the values that its create gave, and its children are those that this run creates, with the values that it
//! gives them. Both are in its type, and follow from the contract of one step. What an instance asks of the run is
//! `Runtime`.
#![tactic(auto)]

mod doings;
mod effect_list;
mod outbox;
mod queue;
mod resting;
mod runtime;
mod sent;
mod thread_instance;
mod thread_world;

pub use doings::{Child, Gifts};
pub use queue::{Injector, LocalQueue, MOST_TAKEN, Refused, Slot, Slots, Ticket, Turn, put};
pub use runtime::Runtime;
pub use thread_instance::{Left, ThreadInstance};
