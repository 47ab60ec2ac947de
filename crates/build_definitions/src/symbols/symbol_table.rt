//! The symbol table of a specification.

ghost use Rattle.std.specs.Prelude.{◌≡◌, IfOk};
ghost use Rattle.build_definitions.specs.Definitions.{rows_of};
ghost use Rattle.build_definitions.specs.Spaces.{AreNamesOf};
ghost use Rattle.build_definitions.specs.Meanings.{duplicate_faults};
ghost use Rattle.build_names.specs.Faults.{Notes};

use crate::definitions::Definitions;
use crate::entries::{ChannelId, SignalListId};
use crate::symbols::groups::{
    AgentNames, BodyNames, SignalNames, agent_names, body_names, signal_names,
};
use build_expressions::{AgentMeaning, SignalMeaning, ValueEntry};
use build_names::{Faults, Spaces};
use sdl_system::{LabelId, StateId};
use std::alloc::{AllocError, Global};

/// The names of a specification, by their name spaces, each with what it stands for in its scope.
pub struct SymbolTable<'s, 't> {
    /// Signals and timers.
    pub signals: Spaces<'t, SignalMeaning<'s>>,
    /// Signal lists.
    pub lists: Spaces<'t, SignalListId>,
    pub channels: Spaces<'t, ChannelId>,
    /// Blocks and processes.
    pub agents: Spaces<'t, AgentMeaning<'s>>,
    /// Variables, formal parameters and synonyms.
    pub values: Spaces<'t, ValueEntry>,
    pub labels: Spaces<'t, LabelId>,
    pub states: Spaces<'t, StateId>,
}

/// Written out, so that it is proved here, and not anew in each crate that drops one.
impl<'s, 't> Drop for SymbolTable<'s, 't> {
    fn drop(self) {
        let SymbolTable {
            signals: _,
            lists: _,
            channels: _,
            agents: _,
            values: _,
            labels: _,
            states: _,
        } = self;
    }
}

impl<'s, 't> SymbolTable<'s, 't> {
    /// The names of a specification with these definitions. One that its scope has already is noted as a Duplicate; a
    /// state may be named again.
    pub fn of(
        alloc: Global,
        definitions: &'s Definitions<'t>,
        faults: &mut Faults<'t>,
    ) -> Result<Self, AllocError>
        ensures names { IfOk result (λ symbols. AreNamesOf (rows_of definitions.now) symbols) }
        ensures noted { IfOk result (λ symbols. Notes faults.old faults.new
            (duplicate_faults (rows_of definitions.now))) }
    {
        let signals = signal_names(alloc, definitions, faults)?;
        let agents = agent_names(alloc, definitions, faults)?;
        let bodies = body_names(alloc, definitions, faults)?;
        Ok(together(signals, agents, bodies))
    }
}

/// The names of all groups.
fn together<'s, 't>(
    signals: SignalNames<'s, 't>,
    agents: AgentNames<'s, 't>,
    bodies: BodyNames<'t>,
) -> SymbolTable<'s, 't>
    ensures signals { result.signals ≡ signals.entry.signals }
    ensures lists { result.lists ≡ signals.entry.lists }
    ensures channels { result.channels ≡ agents.entry.channels }
    ensures agents { result.agents ≡ agents.entry.agents }
    ensures values { result.values ≡ bodies.entry.values }
    ensures labels { result.labels ≡ bodies.entry.labels }
    ensures states { result.states ≡ bodies.entry.states }
{
    SymbolTable {
        signals: signals.signals,
        lists: signals.lists,
        channels: agents.channels,
        agents: agents.agents,
        values: bodies.values,
        labels: bodies.labels,
        states: bodies.states,
    }
}
