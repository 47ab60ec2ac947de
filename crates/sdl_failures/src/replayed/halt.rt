//! The place of a failure.

use crate::replayed::reception::Misfit;
use port_model::SignalId;
use sdl_system::{ConditionId, NodeId, StateId};

/// What of a process fails an instance of it.
#[derive(Clone, Copy, PartialEq, Eq)]
pub enum Halt {
    /// A part of a statement. A decision, a join and a create have one, which counts as 0.
    Statement {
        node: NodeId,
        part: usize,
    },
    /// A signal that is taken in this state, of which a value doesn't fit its variable.
    Reception {
        state: StateId,
        signal: SignalId,
        misfit: Misfit,
    },
    /// A condition of this state.
    Condition {
        state: StateId,
        condition: ConditionId,
    },
}
