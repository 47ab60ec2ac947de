//! The entries of the tables: what one definition of a specification is, with the scope that it stands in.

use build_expressions::ValueEntry;
use build_names::ScopeId;
use sdl_system::{BlockId, LabelId, ProcessId, Sort, StateId};
use sdl_tree::{
    BlockDefinition, ChannelConnection, ChannelDefinition, Expression, Name, ProcessDefinition,
    SignalListDefinition, SignalSet, SynonymDefinition,
};

/// A signal list, by its place among all signal lists of the specification in the order of the text.
#[derive(Clone, Copy, PartialEq, Eq)]
pub struct SignalListId(pub u32);

/// A channel, by its place among all channels of the specification in the order of the text.
#[derive(Clone, Copy, PartialEq, Eq)]
pub struct ChannelId(pub u32);

/// A block of the system. Its number is its place in the table.
#[derive(Clone, Copy)]
pub struct BlockEntry<'t> {
    pub definition: &'t BlockDefinition,
}

/// A process. Its number is its place in the table.
#[derive(Drop)]
pub struct ProcessEntry<'t> {
    /// The system or the block that it stands in.
    pub scope: ScopeId,
    pub definition: &'t ProcessDefinition,
    /// The sorts of its formal parameters, one for each name. A sort is None where its name is no sort's.
    pub sorts: Vec<Option<Sort>>,
}

/// A block or a process, by its number.
#[derive(Clone, Copy, PartialEq, Eq)]
pub enum Agent {
    Block(BlockId),
    Process(ProcessId),
}

/// A block or a process, by its name.
#[derive(Clone, Copy)]
pub struct AgentEntry<'t> {
    pub scope: ScopeId,
    pub name: &'t Name,
    pub agent: Agent,
}

/// Whether a name is a signal's or a timer's.
#[derive(Clone, Copy)]
pub enum SignalKind<'t> {
    Signal,
    /// With its default duration, where it has one.
    Timer { duration: Option<&'t Expression> },
}

/// A signal or a timer. Its number is its place in the table.
#[derive(Drop)]
pub struct SignalEntry<'t> {
    pub scope: ScopeId,
    pub name: &'t Name,
    /// The sorts of its parameters. A sort is None where its name is no sort's.
    pub sorts: Vec<Option<Sort>>,
    pub kind: SignalKind<'t>,
}

/// A signal list. Its number is its place in the table.
#[derive(Clone, Copy)]
pub struct SignalListEntry<'t> {
    pub scope: ScopeId,
    pub definition: &'t SignalListDefinition,
}

/// A channel. Its number is its place in the table.
#[derive(Clone, Copy)]
pub struct ChannelEntry<'t> {
    pub scope: ScopeId,
    pub definition: &'t ChannelDefinition,
}

/// A `connect`, with the block that it stands in.
#[derive(Clone, Copy)]
pub struct ConnectionEntry<'t> {
    /// The scope of that block.
    pub scope: ScopeId,
    pub definition: &'t ChannelConnection,
}

/// A `signalset`, with the process that it stands in.
#[derive(Clone, Copy)]
pub struct SignalSetEntry<'t> {
    /// The scope of that process.
    pub scope: ScopeId,
    pub definition: &'t SignalSet,
}

/// A synonym. Its number is its place in the table.
#[derive(Clone, Copy)]
pub struct SynonymEntry<'t> {
    pub scope: ScopeId,
    /// None where the name of its sort is no sort's.
    pub sort: Option<Sort>,
    pub definition: &'t SynonymDefinition,
}

/// A variable, a formal parameter or a synonym, by its name.
#[derive(Clone, Copy)]
pub struct ValueName<'t> {
    pub scope: ScopeId,
    pub name: &'t Name,
    /// The declaration: a variable with its number in its process, where the formal parameters come first, or a synonym
    /// with its number.
    pub entry: ValueEntry,
    /// The initial value of a variable, where it has one.
    pub initial: Option<&'t Expression>,
}

/// A label of a process.
#[derive(Clone, Copy)]
pub struct LabelEntry<'t> {
    pub process: ProcessId,
    /// Its place among the labels of the process, in the order of the text.
    pub number: LabelId,
    pub name: &'t Name,
}

/// A state of a process, where a state list first names it.
#[derive(Clone, Copy)]
pub struct StateEntry<'t> {
    pub process: ProcessId,
    /// Its place among the states of the process, in the order in which they are first named.
    pub number: StateId,
    pub name: &'t Name,
}
