//! Groups of name spaces: each is made by a function of its own, so that few spaces are at stake where memory runs out.

ghost use Rattle.std.specs.Prelude.{◌++◌, IfOk};
ghost use Rattle.build_definitions.specs.Definitions.{rows_of};
ghost use Rattle.build_definitions.specs.Entries.{Has, HasMeant, duplicates, standings};
ghost use Rattle.build_definitions.specs.Meanings.{agent_entries, channel_entries, label_entries, list_entries, signal_entries, state_entries, value_entries};
ghost use Rattle.build_names.specs.Faults.{Notes};
ghost use Rattle.build_expressions.specs.Scope.{agent_meaning, signal_meaning};

use crate::definitions::Definitions;
use crate::entries::{ChannelId, SignalListId};
use crate::symbols::agents::declare_agents;
use crate::symbols::channels::declare_channels;
use crate::symbols::labels::declare_labels;
use crate::symbols::lists::declare_lists;
use crate::symbols::signals::declare_signals;
use crate::symbols::states::declare_states;
use crate::symbols::values::declare_values;
use build_expressions::{AgentMeaning, SignalMeaning, ValueEntry};
use build_names::{Faults, Spaces};
use sdl_system::{LabelId, StateId};
use std::alloc::{AllocError, Global};

/// Signals and timers, and signal lists.
#[derive(Drop)]
pub struct SignalNames<'s, 't> {
    pub signals: Spaces<'t, SignalMeaning<'s>>,
    pub lists: Spaces<'t, SignalListId>,
}

/// Channels, and the blocks and processes that they join.
#[derive(Drop)]
pub struct AgentNames<'s, 't> {
    pub channels: Spaces<'t, ChannelId>,
    pub agents: Spaces<'t, AgentMeaning<'s>>,
}

/// Variables, formal parameters and synonyms, and the labels and states of processes.
#[derive(Drop)]
pub struct BodyNames<'t> {
    pub values: Spaces<'t, ValueEntry>,
    pub labels: Spaces<'t, LabelId>,
    pub states: Spaces<'t, StateId>,
}

pub fn signal_names<'s, 't>(
    alloc: Global,
    definitions: &'s Definitions<'t>,
    faults: &mut Faults<'t>,
) -> Result<SignalNames<'s, 't>, AllocError>
    ensures signals { IfOk result (λ names. HasMeant signal_meaning names.signals
        (signal_entries (rows_of definitions.now))) }
    ensures lists { IfOk result (λ names. Has names.lists (list_entries (rows_of definitions.now))) }
    ensures noted { IfOk result (λ names. Notes faults.old faults.new
        (duplicates (standings (signal_entries (rows_of definitions.now)))
        ++ duplicates (standings (list_entries (rows_of definitions.now))))) }
{
    let signals = declare_signals(alloc, definitions, faults)?;
    let lists = declare_lists(alloc, definitions, faults)?;
    Ok(SignalNames { signals, lists })
}

pub fn agent_names<'s, 't>(
    alloc: Global,
    definitions: &'s Definitions<'t>,
    faults: &mut Faults<'t>,
) -> Result<AgentNames<'s, 't>, AllocError>
    ensures channels { IfOk result (λ names. Has names.channels (channel_entries (rows_of definitions.now))) }
    ensures agents { IfOk result (λ names. HasMeant agent_meaning names.agents
        (agent_entries (rows_of definitions.now))) }
    ensures noted { IfOk result (λ names. Notes faults.old faults.new
        (duplicates (standings (channel_entries (rows_of definitions.now)))
        ++ duplicates (standings (agent_entries (rows_of definitions.now))))) }
{
    let channels = declare_channels(alloc, definitions, faults)?;
    let agents = declare_agents(alloc, definitions, faults)?;
    Ok(AgentNames { channels, agents })
}

pub fn body_names<'t>(
    alloc: Global,
    definitions: &Definitions<'t>,
    faults: &mut Faults<'t>,
) -> Result<BodyNames<'t>, AllocError>
    ensures values { IfOk result (λ names. Has names.values (value_entries (rows_of definitions.now))) }
    ensures labels { IfOk result (λ names. Has names.labels (label_entries (rows_of definitions.now))) }
    ensures states { IfOk result (λ names. Has names.states (state_entries (rows_of definitions.now))) }
    ensures noted { IfOk result (λ names. Notes faults.old faults.new
        (duplicates (standings (value_entries (rows_of definitions.now)))
        ++ duplicates (standings (label_entries (rows_of definitions.now))))) }
{
    let values = declare_values(alloc, definitions, faults)?;
    let labels = declare_labels(alloc, definitions, faults)?;
    let states = declare_states(alloc, definitions)?;
    Ok(BodyNames {
        values,
        labels,
        states,
    })
}
