//! The system, its blocks and processes, and what they define.

use crate::behaviour::{BodyPart, Start};
use crate::expressions::Expression;
use crate::name::{Name, SortName, Spelling};

/// A specification: one system. Names have a place; actions, stimuli and most definitions keep their first word. Most
/// other nodes have no place of their own.
pub struct Tree {
    pub name: Name,
    pub definitions: Vec<SystemDefinition>,
}

/// Written out, so that the drop of all that a tree may hold is proved here, and not anew in each crate that drops one.
impl Drop for Tree {
    fn drop(self) {
        let Tree {
            name: _,
            definitions: _,
        } = self;
    }
}

/// A definition in a system: a block, or one that a block can have too.
#[derive(Drop)]
pub enum SystemDefinition {
    Shared(Definition),
    Block(BlockDefinition),
}

/// A block and what it defines, with the word `block`.
#[derive(Drop)]
pub struct BlockDefinition {
    pub word: Spelling,
    pub name: Name,
    pub definitions: Vec<BlockPart>,
}

/// A part of a block: a connection of a channel, or a definition that a system can have too.
#[derive(Drop)]
pub enum BlockPart {
    Shared(Definition),
    Connect(ChannelConnection),
}

/// A definition that both a system and a block can have.
#[derive(Drop)]
pub enum Definition {
    Signals(Vec<SignalDefinition>),
    SignalList(SignalListDefinition),
    Synonyms(SynonymDefinitions),
    Channel(ChannelDefinition),
    Process(ProcessDefinition),
}

/// One signal with the sorts of its parameters. The list is empty where no parentheses stand.
#[derive(Drop)]
pub struct SignalDefinition {
    pub name: Name,
    pub sorts: Vec<SortName>,
}

/// A name for a list of signals, with the word `signallist`.
#[derive(Drop)]
pub struct SignalListDefinition {
    pub word: Spelling,
    pub name: Name,
    pub items: Vec<SignalListItem>,
}

/// A signal, or in parentheses a list of signals, by its name.
#[derive(Drop)]
pub enum SignalListItem {
    Signal(Name),
    List(Name),
}

/// The names that one `synonym` defines.
#[derive(Drop)]
pub struct SynonymDefinitions {
    pub word: Spelling,
    pub synonyms: Vec<SynonymDefinition>,
}

/// A name for a constant value.
#[derive(Drop)]
pub struct SynonymDefinition {
    pub name: Name,
    pub sort: SortName,
    pub value: Expression,
}

/// A channel with its one or two paths, and with the word `channel`.
#[derive(Drop)]
pub struct ChannelDefinition {
    pub word: Spelling,
    pub name: Name,
    /// Whether `nodelay` stands.
    pub is_nodelay: bool,
    pub first: ChannelPath,
    pub second: Option<ChannelPath>,
}

/// One direction of a channel, with the signals that it carries.
#[derive(Drop)]
pub struct ChannelPath {
    pub from: ChannelEnd,
    pub to: ChannelEnd,
    pub signals: Vec<SignalListItem>,
}

/// An end of a channel path: the environment, or a block or process.
#[derive(Drop)]
pub enum ChannelEnd {
    Env(Spelling),
    Agent(Name),
}

/// Channels outside of a block that are joined with channels in it, with the word `connect`.
#[derive(Drop)]
pub struct ChannelConnection {
    pub word: Spelling,
    pub outer: Vec<Name>,
    pub inner: Vec<Name>,
}

/// A process: its formal parameters, its own definitions, the start transition and the body behind it, with the
/// word `process`.
#[derive(Drop)]
pub struct ProcessDefinition {
    pub word: Spelling,
    pub name: Name,
    pub counts: Option<Counts>,
    pub parameters: Option<FormalParameters>,
    pub definitions: Vec<LocalDefinition>,
    pub start: Start,
    pub body: Vec<BodyPart>,
}

/// How many instances a process has at first and at most, with the parts that stand.
#[derive(Drop)]
pub struct Counts {
    pub parenthesis: Spelling,
    pub initial: Option<Expression>,
    pub bound: Option<Bound>,
}

/// The part of the counts of a process from the comma on: the maximum, if one stands there.
#[derive(Drop)]
pub struct Bound {
    pub maximum: Option<Expression>,
}

/// The formal parameters of a process, with the word `fpar`.
#[derive(Drop)]
pub struct FormalParameters {
    pub word: Spelling,
    pub groups: Vec<ParameterGroup>,
}

/// Formal parameters of one sort.
#[derive(Drop)]
pub struct ParameterGroup {
    pub names: Vec<Name>,
    pub sort: SortName,
}

/// A definition of a process for itself.
#[derive(Drop)]
pub enum LocalDefinition {
    Signals(Vec<SignalDefinition>),
    SignalList(SignalListDefinition),
    Synonyms(SynonymDefinitions),
    SignalSet(SignalSet),
    Variables(Vec<VariableGroup>),
    Timers(TimerDefinitions),
}

/// Variables of one sort, with one initial value for all of them where there is one.
#[derive(Drop)]
pub struct VariableGroup {
    pub names: Vec<Name>,
    pub sort: SortName,
    pub initial: Option<Expression>,
}

/// The signals that a process can receive, with the word `signalset`.
#[derive(Drop)]
pub struct SignalSet {
    pub word: Spelling,
    pub items: Vec<SignalListItem>,
}

/// The timers that one `timer` defines.
#[derive(Drop)]
pub struct TimerDefinitions {
    pub word: Spelling,
    pub timers: Vec<TimerDefinition>,
}

/// One timer with the sorts of its parameters and its default duration, where it has one.
#[derive(Drop)]
pub struct TimerDefinition {
    pub name: Name,
    pub sorts: Vec<SortName>,
    pub duration: Option<Expression>,
}
