//! What the tables of a process are made of.

use sdl_system::{NodeId, SignalSet};

/// The parts from which the tables of a process are made.
#[derive(Clone, Copy)]
pub struct TableParts<'a> {
    /// The node at which each transition begins, by the number of the transition.
    pub entries: &'a [NodeId],
    /// The valid input set.
    pub valid: &'a SignalSet,
    /// How many signals and timers the system has.
    pub signals: u32,
}
