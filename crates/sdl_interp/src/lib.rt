//! One instance of a process (Z.101: agent, state; Z.102: start, input, priority input, save, enabling condition,
//! continuous signal), over any inbox.
//!
//! `Instance::step` does one whole transition, one discard, or what fails the instance in a state; or it finds nothing
//! to do. All that an instance did is a run of its process on the history of its port (`specs/Instance`), and its type
//! keeps that.
#![tactic(auto)]

mod ahead;
mod clock;
mod condition;
mod continuous;
mod instance;
mod received;
mod reception;
mod selection;
mod stimulus;
mod transitions;

pub use ahead::Ahead;
pub use instance::{Closed, Instance, Stepped};
pub use transitions::{Position, sort_of};
