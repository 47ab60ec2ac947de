//! The definitions of a specification, each with the scope that it stands in.

use build_names::ScopeId;
use sdl_system::{BlockId, ProcessId};
use sdl_tree::{
    BlockDefinition, ChannelConnection, ChannelDefinition, ParameterGroup, ProcessDefinition,
    SignalDefinition, SignalListDefinition, SignalSet, SynonymDefinition, TimerDefinition,
    VariableGroup,
};

/// A definition. What stands within a block or a process is told behind it.
#[derive(Clone, Copy)]
pub enum Part<'t> {
    Block {
        number: BlockId,
        definition: &'t BlockDefinition,
    },
    Process {
        number: ProcessId,
        definition: &'t ProcessDefinition,
    },
    Channel(&'t ChannelDefinition),
    Connection(&'t ChannelConnection),
    Signals(&'t [SignalDefinition]),
    Timers(&'t [TimerDefinition]),
    SignalList(&'t SignalListDefinition),
    Synonyms(&'t [SynonymDefinition]),
    SignalSet(&'t SignalSet),
    Parameters(&'t ParameterGroup),
    Variables(&'t VariableGroup),
}

/// A definition with the scope that it stands in.
#[derive(Clone, Copy)]
pub struct Placed<'t> {
    pub scope: ScopeId,
    pub part: Part<'t>,
}
