//! All that a specification defines, in tables.

ghost use Rattle.std.specs.Prelude.{◌≡◌, map, slice_get, IfOk};
ghost use Rattle.build_definitions.specs.Parts.{all_sort_faults, parts_in};
ghost use Rattle.build_definitions.specs.Seen.{process_seen};
ghost use Rattle.build_definitions.specs.Definitions.{block_of, block_round, path_of, rows_in, rows_of};
ghost use Rattle.build_definitions.specs.Views.{parts_listed};
ghost use Rattle.build_names.specs.Faults.{Notes};
ghost use Rattle.sdl_tree.specs.Views.{tree_value};

use crate::entries::{
    AgentEntry, BlockEntry, ChannelEntry, ConnectionEntry, LabelEntry, ProcessEntry, SignalEntry,
    SignalListEntry, SignalSetEntry, StateEntry, SynonymEntry, ValueName,
};
use crate::groups::{AgentTables, ChannelTables, PlaceTables, SignalTables, ValueTables};
use crate::part::Placed;
use crate::sorts::note_in_parts;
use crate::walk::parts_in;
use build_names::{Faults, ScopeId, ScopePath};
use sdl_system::{BlockId, ProcessId};
use sdl_tree::Tree;
use std::alloc::{AllocError, Global};

/// All that a specification defines: a table for each kind, in the order of the text, each entry with the scope that it
/// stands in and with the part of the tree that defines it.
pub struct Definitions<'t> {
    pub blocks: Vec<BlockEntry<'t>>,
    pub processes: Vec<ProcessEntry<'t>>,
    /// Blocks and processes, by their names.
    pub agents: Vec<AgentEntry<'t>>,
    /// Signals and timers.
    pub signals: Vec<SignalEntry<'t>>,
    pub lists: Vec<SignalListEntry<'t>>,
    pub channels: Vec<ChannelEntry<'t>>,
    pub connections: Vec<ConnectionEntry<'t>>,
    pub signal_sets: Vec<SignalSetEntry<'t>>,
    pub synonyms: Vec<SynonymEntry<'t>>,
    /// Variables, formal parameters and synonyms, by their names.
    pub values: Vec<ValueName<'t>>,
    pub labels: Vec<LabelEntry<'t>>,
    pub states: Vec<StateEntry<'t>>,
}

/// Written out, so that it is proved here, and not anew in each crate that drops one.
impl<'t> Drop for Definitions<'t> {
    fn drop(self) {
        let Definitions {
            blocks: _,
            processes: _,
            agents: _,
            signals: _,
            lists: _,
            channels: _,
            connections: _,
            signal_sets: _,
            synonyms: _,
            values: _,
            labels: _,
            states: _,
        } = self;
    }
}

impl<'t> Definitions<'t> {
    /// The definitions of a specification. A name that stands for a sort and is none's is noted as Unknown.
    pub fn of(alloc: Global, tree: &'t Tree, faults: &mut Faults<'t>) -> Result<Self, AllocError>
        ensures definitions { IfOk result (λ definitions. rows_of definitions
            ≡ rows_in (parts_in (tree_value tree.now))) }
        ensures noted { IfOk result (λ definitions. Notes faults.old faults.new
            (all_sort_faults (tree_value tree.now))) }
    {
        let parts = parts_in(alloc, tree)?;
        note_in_parts(&parts, faults);
        tables_of(alloc, &parts)
    }

    /// The scopes round the inside of a scope.
    pub fn path_of(&self, scope: ScopeId) -> ScopePath
        ensures { result ≡ path_of (map process_seen self.now.processes.items) scope }
    {
        match scope {
            ScopeId::System => ScopePath {
                process: None,
                block: None,
            },
            ScopeId::Block(block) => ScopePath {
                process: None,
                block: Some(block),
            },
            ScopeId::Process(process) => ScopePath {
                process: Some(process),
                block: self.block_round(process),
            },
        }
    }

    /// The block that a process stands in, if it stands in one.
    fn block_round(&self, process: ProcessId) -> Option<BlockId>
        ensures { result ≡ block_round (slice_get (map process_seen self.now.processes.items) process.0) }
    {
        match self.processes.get(process.0 as usize) {
            None => None,
            Some(process) => block_of(process.scope),
        }
    }
}

/// The block of a scope, if it is one.
fn block_of(scope: ScopeId) -> Option<BlockId>
    ensures { result ≡ block_of scope }
{
    match scope {
        ScopeId::System => None,
        ScopeId::Block(block) => Some(block),
        ScopeId::Process(_) => None,
    }
}

/// The tables of these definitions.
fn tables_of<'t>(alloc: Global, parts: &[Placed<'t>]) -> Result<Definitions<'t>, AllocError>
    ensures { IfOk result (λ definitions. rows_of definitions ≡ rows_in (parts_listed parts.now)) }
{
    let agents = AgentTables::of(alloc, parts)?;
    let signals = SignalTables::of(alloc, parts)?;
    let channels = ChannelTables::of(alloc, parts)?;
    let values = ValueTables::of(alloc, parts)?;
    let places = PlaceTables::of(alloc, parts)?;
    Ok(Definitions {
        blocks: agents.blocks,
        processes: agents.processes,
        agents: agents.agents,
        signals: signals.signals,
        lists: signals.lists,
        channels: channels.channels,
        connections: channels.connections,
        signal_sets: signals.signal_sets,
        synonyms: values.synonyms,
        values: values.values,
        labels: places.labels,
        states: places.states,
    })
}
