//! What a transition can name.

use build_expressions::Scope;
use build_names::Names;
use port_model::SignalId;
use sdl_system::{LabelId, StateId};

/// The meanings of the names in the transitions of a process.
#[derive(Clone, Copy)]
pub struct Context<'a, 's, 't> {
    /// Variables and synonyms, signals and timers, processes and blocks.
    pub scope: Scope<'a, 's, 't>,
    pub states: &'a Names<'t, StateId>,
    pub labels: &'a Names<'t, LabelId>,
    /// Whether a path leads a signal from the process to a receiver, by the signal's number.
    pub reaches: &'a [bool],
    /// The default duration of a timer in ticks, by the timer's number; None where it has none, or none that has a
    /// value.
    pub durations: &'a [Option<i64>],
}

impl<'a, 's, 't> Context<'a, 's, 't> {
    ghost use Rattle.std.specs.Prelude.{◌≡◌};
    ghost use Rattle.build_statements.specs.Contexts.{context_of, duration_of, is_reaching};

    /// Whether a path leads the signal to a receiver.
    pub fn is_reaching(&self, signal: SignalId) -> bool
        ensures { result ≡ is_reaching (context_of self.now) signal }
    {
        self.reaches
            .get(signal.0 as usize)
            .copied()
            .unwrap_or(false)
    }

    /// The default duration of a timer.
    pub fn duration(&self, timer: SignalId) -> Option<i64>
        ensures { result ≡ duration_of (context_of self.now) timer }
    {
        self.durations
            .get(timer.0 as usize)
            .copied()
            .unwrap_or(None)
    }
}
