//! What an instance does to what lies outside of it.

use port_model::{Fuse, Item, Values};
use sdl_system::{ProcessId, Target};

/// An effect that a step of an instance has outside of it. It is done when the step is over.
#[derive(Drop)]
pub enum Effect {
    /// A signal is sent.
    Send {
        target: Target,
        item: Item,
    },
    /// A timer is set, which expires at its time.
    Arm(Fuse),
    /// An instance of the process is made, with this number and these values of its parameters. `parent` is the number
    /// of its creator.
    Create {
        process: ProcessId,
        number: u32,
        parent: u32,
        values: Values,
    },
}
