//! The queue of a shared input port of an SDL agent, without a lock, with those who put into it and the one that draws.
//!
//! A port is a queue that all threads share. Senders push signals and expiries into it, each sender with a number that
//! the desk gave out; the receiver draws them, puts each into its plain port in turn, and takes from there. It serves an
//! owner that lives and one that has stopped, and says nothing of which of the two it is. `specs/Rule.antt` has the
//! rule over what the queue holds and over what each sender, the receiver and the desk know. It stands at every moment,
//! and each atomic step of `steps` keeps it.

mod desk;
mod finished;
mod receiver;
pub mod refused;
mod rule;
mod sender;
mod shared;
pub mod steps;

pub use desk::Desk;
pub use finished::Finished;
pub use receiver::Receiver;
pub use rule::{Pass, Queue};
pub use sender::Sender;
pub use shared::Port;
