//! Signals and timers, and sets of them (Z.101: signal, valid input signal set; Z.102: timer).

ghost use Rattle.std.specs.Prelude.{◌≡◌};
ghost use Rattle.sdl_system.specs.Signal.{is_member};

use crate::id::ProcessId;
use crate::sort::Sort;
use port_model::SignalId;
use std::marker::Model;

/// A signal, or a timer, whose signal comes when it is due. They share their numbers, in the order of the text.
#[derive(Drop)]
pub struct Signal {
    pub name: String,
    /// The sorts of its values.
    pub sorts: Vec<Sort>,
    /// The process and the default duration of a timer; None for a signal.
    pub timer: Option<Timer>,
}

/// The part of a timer besides its name and the sorts of its values.
#[derive(Clone, Copy, PartialEq, Eq)]
pub struct Timer {
    /// The process whose instances set it.
    pub process: ProcessId,
    /// For how many ticks it is set where no time is told.
    pub default: Option<i64>,
}

/// A set of signals and timers.
#[derive(Drop)]
pub struct SignalSet {
    members: Vec<bool>,
}

impl Model for SignalSet {
    ghost use Rattle.std.specs.Prelude.{Bool, List};

    ghost Value = { List Bool };

    ghost view = { λ set. set.members.items };
}

impl SignalSet {
    /// The signals at whose number the list has true. Takes no memory.
    pub fn new(members: Vec<bool>) -> Self
        ensures { result ≡ members.items }
    {
        SignalSet { members }
    }

    /// Whether the signal is in the set.
    pub fn contains(&self, signal: SignalId) -> bool
        ensures { result ≡ is_member self.now signal }
    {
        self.members
            .get(signal.0 as usize)
            .copied()
            .unwrap_or(false)
    }
}
