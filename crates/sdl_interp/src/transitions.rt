//! The transitions of an instance (Z.102: transition, task, output, timers, create, decision, join, nextstate, stop),
//! over the nodes of its process.
//!
//! `Core::make` does a whole transition, from the node at which it begins to the state in which it ends: what it does
//! is what the definitions of `run_semantics` allow of the statements that stand there. It works on what the instance
//! knows and its record (`Machine`), on its port, and on the world outside, and walks without memory of its own.

mod count;
mod create;
mod decision;
mod machine;
mod output;
mod running;
mod sum;
mod task;
mod timer;
mod variable;
mod walk;

pub use machine::{Machine, Position, make_room};
pub use running::Core;
pub use variable::sort_of;
