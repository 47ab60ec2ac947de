//! What stands around a process.

ghost use Rattle.std.specs.Prelude.{◌≡◌};

use build_definitions::SignalListId;
use build_expressions::Scope;
use build_names::{Names, Outward};
use build_states::NamedStates;
use port_model::SignalId;
use sdl_system::LabelId;

/// The meanings of the names in a process, its own states and labels among them.
#[derive(Clone, Copy)]
pub struct ProcessScope<'a, 's, 't> {
    /// Variables, formal parameters and synonyms; signals and timers; processes and blocks.
    pub scope: Scope<'a, 's, 't>,
    pub lists: Outward<'a, 't, SignalListId>,
    /// The signals that each signal list stands for, also through lists within it, by its number.
    pub members: &'a [Vec<SignalId>],
    pub states: NamedStates<'a, 't>,
    pub labels: &'a Names<'t, LabelId>,
    /// Whether a path leads a signal from the process to a receiver, by the signal's number.
    pub reaches: &'a [bool],
    /// The default duration of a timer in ticks, by the timer's number; None where it has none, or none that has a
    /// value.
    pub durations: &'a [Option<i64>],
    /// How many signals and timers the system has.
    pub signals: u32,
}

impl<'a, 's, 't> ProcessScope<'a, 's, 't> {
    ghost use Rattle.build_statements.specs.Contexts as nodes;
    ghost use Rattle.build_states.specs.Context as stimuli;
    ghost use Rattle.build_process.specs.ProcessScope.{for_stimuli, for_transitions, process_scope_of};

    /// Gives the meanings of the names that stimuli can use.
    pub(crate) fn for_stimuli(&self) -> build_states::Context<'a, 's, 't>
        ensures { stimuli.context_of result ≡ for_stimuli (process_scope_of self.now) }
    {
        build_states::Context {
            scope: self.scope,
            lists: self.lists,
            members: self.members,
        }
    }

    /// Gives the meanings of the names that transitions can use.
    pub(crate) fn for_transitions(&self) -> build_statements::Context<'a, 's, 't>
        ensures { nodes.context_of result ≡ for_transitions (process_scope_of self.now) }
    {
        build_statements::Context {
            scope: self.scope,
            states: self.states.table,
            labels: self.labels,
            reaches: self.reaches,
            durations: self.durations,
        }
    }
}
