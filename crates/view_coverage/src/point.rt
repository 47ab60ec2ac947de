//! The points of a process that are counted.

use port_model::SignalId;
use sdl_system::{ProcessId, StateId};

/// Something that may happen in a state of a process.
#[derive(Clone, Copy, PartialEq, Eq, Hash)]
pub struct Point {
    pub process: ProcessId,
    pub state: StateId,
    pub passage: Passage,
}

/// What may happen in a state.
#[derive(Clone, Copy, PartialEq, Eq, Hash)]
pub enum Passage {
    /// The state is entered.
    Entered,
    /// An input or a priority input takes this signal, or the signal of this timer.
    Taken(SignalId),
    /// The transition of the continuous signal of this number begins. They count from 1 in each state.
    Provided(u32),
}
