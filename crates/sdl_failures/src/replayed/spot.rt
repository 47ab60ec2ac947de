//! How far an instance has come on the way through its record.

use sdl_system::{NodeId, StateId};

/// A spot on that way.
#[derive(Clone, Copy, PartialEq, Eq)]
pub enum Spot {
    /// Before its last transition, and last in this state. None: before the start.
    Between(Option<StateId>),
    /// In its last transition, at a statement of which so many parts are done.
    At { node: NodeId, part: usize },
}
