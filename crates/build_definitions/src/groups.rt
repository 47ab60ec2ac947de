//! Groups of tables: each is made by functions of its own, so that few tables are at stake where memory runs out.

ghost use Rattle.std.specs.Prelude.{◌≡◌, ◌++◌, flat_map, map, IfOk, OnOk};
ghost use Rattle.build_definitions.specs.Rows.{placed_agents, placed_blocks, placed_channels, placed_connections, placed_labels, placed_processes, placed_signal_lists, placed_signal_sets, placed_signals, placed_states, placed_synonyms, value_rows};
ghost use Rattle.build_definitions.specs.Seen.{agent_seen, block_seen, channel_seen, connection_seen, label_seen, process_seen, signal_list_seen, signal_seen, signal_set_seen, state_seen, synonym_seen, value_seen};
ghost use Rattle.build_definitions.specs.Views.{parts_listed, placed_value};

use crate::agents::{add_agent, add_block, add_process};
use crate::entries::{
    AgentEntry, BlockEntry, ChannelEntry, ConnectionEntry, LabelEntry, ProcessEntry, SignalEntry,
    SignalListEntry, SignalSetEntry, StateEntry, SynonymEntry, ValueName,
};
use crate::lists::{add_channel, add_connection, add_signal_list, add_signal_set};
use crate::part::Placed;
use crate::places::{add_labels, add_states};
use crate::signals::add_of_part;
use crate::values::{synonyms_in, values_in};
use std::alloc::{AllocError, Global};

/// Blocks and processes.
#[derive(Drop)]
pub struct AgentTables<'t> {
    pub blocks: Vec<BlockEntry<'t>>,
    pub processes: Vec<ProcessEntry<'t>>,
    pub agents: Vec<AgentEntry<'t>>,
}

impl<'t> AgentTables<'t> {
    pub fn of(alloc: Global, parts: &[Placed<'t>]) -> Result<Self, AllocError>
        ensures blocks { IfOk result (λ tables. map block_seen tables.blocks.items
            ≡ flat_map placed_blocks (parts_listed parts.now)) }
        ensures processes { IfOk result (λ tables. map process_seen tables.processes.items
            ≡ flat_map placed_processes (parts_listed parts.now)) }
        ensures agents { IfOk result (λ tables. map agent_seen tables.agents.items
            ≡ flat_map placed_agents (parts_listed parts.now)) }
    {
        let mut tables = AgentTables {
            blocks: Vec::new(alloc),
            processes: Vec::new(alloc),
            agents: Vec::new(alloc),
        };
        for placed in parts {
            tables.add(alloc, *placed)?;
        }
        Ok(tables)
    }

    fn add(&mut self, alloc: Global, placed: Placed<'t>) -> Result<(), AllocError>
        ensures blocks { OnOk result (map block_seen self.new.blocks.items
            ≡ map block_seen self.old.blocks.items ++ placed_blocks (placed_value placed.entry)) }
        ensures processes { OnOk result (map process_seen self.new.processes.items
            ≡ map process_seen self.old.processes.items ++ placed_processes (placed_value placed.entry)) }
        ensures agents { OnOk result (map agent_seen self.new.agents.items
            ≡ map agent_seen self.old.agents.items ++ placed_agents (placed_value placed.entry)) }
    {
        add_block(&mut self.blocks, placed)?;
        add_process(alloc, &mut self.processes, placed)?;
        add_agent(&mut self.agents, placed)
    }
}

/// Signals and timers, and what lists them.
#[derive(Drop)]
pub struct SignalTables<'t> {
    pub signals: Vec<SignalEntry<'t>>,
    pub lists: Vec<SignalListEntry<'t>>,
    pub signal_sets: Vec<SignalSetEntry<'t>>,
}

impl<'t> SignalTables<'t> {
    pub fn of(alloc: Global, parts: &[Placed<'t>]) -> Result<Self, AllocError>
        ensures signals { IfOk result (λ tables. map signal_seen tables.signals.items
            ≡ flat_map placed_signals (parts_listed parts.now)) }
        ensures lists { IfOk result (λ tables. map signal_list_seen tables.lists.items
            ≡ flat_map placed_signal_lists (parts_listed parts.now)) }
        ensures signal_sets { IfOk result (λ tables. map signal_set_seen tables.signal_sets.items
            ≡ flat_map placed_signal_sets (parts_listed parts.now)) }
    {
        let mut tables = SignalTables {
            signals: Vec::new(alloc),
            lists: Vec::new(alloc),
            signal_sets: Vec::new(alloc),
        };
        for placed in parts {
            tables.add(alloc, *placed)?;
        }
        Ok(tables)
    }

    fn add(&mut self, alloc: Global, placed: Placed<'t>) -> Result<(), AllocError>
        ensures signals { OnOk result (map signal_seen self.new.signals.items
            ≡ map signal_seen self.old.signals.items ++ placed_signals (placed_value placed.entry)) }
        ensures lists { OnOk result (map signal_list_seen self.new.lists.items
            ≡ map signal_list_seen self.old.lists.items ++ placed_signal_lists (placed_value placed.entry)) }
        ensures signal_sets { OnOk result (map signal_set_seen self.new.signal_sets.items
            ≡ map signal_set_seen self.old.signal_sets.items ++ placed_signal_sets (placed_value placed.entry)) }
    {
        add_of_part(alloc, &mut self.signals, placed)?;
        add_signal_list(&mut self.lists, placed)?;
        add_signal_set(&mut self.signal_sets, placed)
    }
}

/// Channels, and what joins them.
#[derive(Drop)]
pub struct ChannelTables<'t> {
    pub channels: Vec<ChannelEntry<'t>>,
    pub connections: Vec<ConnectionEntry<'t>>,
}

impl<'t> ChannelTables<'t> {
    pub fn of(alloc: Global, parts: &[Placed<'t>]) -> Result<Self, AllocError>
        ensures channels { IfOk result (λ tables. map channel_seen tables.channels.items
            ≡ flat_map placed_channels (parts_listed parts.now)) }
        ensures connections { IfOk result (λ tables. map connection_seen tables.connections.items
            ≡ flat_map placed_connections (parts_listed parts.now)) }
    {
        let mut tables = ChannelTables {
            channels: Vec::new(alloc),
            connections: Vec::new(alloc),
        };
        for placed in parts {
            tables.add(*placed)?;
        }
        Ok(tables)
    }

    fn add(&mut self, placed: Placed<'t>) -> Result<(), AllocError>
        ensures channels { OnOk result (map channel_seen self.new.channels.items
            ≡ map channel_seen self.old.channels.items ++ placed_channels (placed_value placed.entry)) }
        ensures connections { OnOk result (map connection_seen self.new.connections.items
            ≡ map connection_seen self.old.connections.items ++ placed_connections (placed_value placed.entry)) }
    {
        add_channel(&mut self.channels, placed)?;
        add_connection(&mut self.connections, placed)
    }
}

/// The labels and states in the bodies of processes.
#[derive(Drop)]
pub struct PlaceTables<'t> {
    pub labels: Vec<LabelEntry<'t>>,
    pub states: Vec<StateEntry<'t>>,
}

impl<'t> PlaceTables<'t> {
    pub fn of(alloc: Global, parts: &[Placed<'t>]) -> Result<Self, AllocError>
        ensures labels { IfOk result (λ tables. map label_seen tables.labels.items
            ≡ flat_map placed_labels (parts_listed parts.now)) }
        ensures states { IfOk result (λ tables. map state_seen tables.states.items
            ≡ flat_map placed_states (parts_listed parts.now)) }
    {
        let mut tables = PlaceTables {
            labels: Vec::new(alloc),
            states: Vec::new(alloc),
        };
        for placed in parts {
            tables.add(alloc, *placed)?;
        }
        Ok(tables)
    }

    fn add(&mut self, alloc: Global, placed: Placed<'t>) -> Result<(), AllocError>
        ensures labels { OnOk result (map label_seen self.new.labels.items
            ≡ map label_seen self.old.labels.items ++ placed_labels (placed_value placed.entry)) }
        ensures states { OnOk result (map state_seen self.new.states.items
            ≡ map state_seen self.old.states.items ++ placed_states (placed_value placed.entry)) }
    {
        add_labels(alloc, &mut self.labels, placed)?;
        add_states(alloc, &mut self.states, placed)
    }
}

/// Synonyms, and names of values.
#[derive(Drop)]
pub struct ValueTables<'t> {
    pub synonyms: Vec<SynonymEntry<'t>>,
    pub values: Vec<ValueName<'t>>,
}

impl<'t> ValueTables<'t> {
    pub fn of(alloc: Global, parts: &[Placed<'t>]) -> Result<Self, AllocError>
        ensures synonyms { IfOk result (λ tables. map synonym_seen tables.synonyms.items
            ≡ flat_map placed_synonyms (parts_listed parts.now)) }
        ensures values { IfOk result (λ tables. map value_seen tables.values.items
            ≡ value_rows 0 0 (parts_listed parts.now)) }
    {
        let synonyms = synonyms_in(alloc, parts)?;
        let values = values_in(alloc, parts)?;
        Ok(ValueTables { synonyms, values })
    }
}
