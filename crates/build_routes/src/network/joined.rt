//! What joins the agents of a system: its processes, blocks, channels and connects (Z.101: agent, channel, connection).

use crate::network::list::{ListId, SignalList};
use sdl_system::{BlockId, ProcessId};

/// A path of a channel, counted from 0 over the whole text. A channel with two paths has two numbers.
#[derive(Clone, Copy, PartialEq, Eq, PartialOrd, Ord, Hash)]
pub struct PathId(pub u32);

/// A scope that has channels. Blocks stand in the system's own scope alone.
#[derive(Clone, Copy, PartialEq, Eq)]
pub enum Scope {
    System,
    Block(BlockId),
}

/// An end of a channel.
#[derive(Clone, Copy, PartialEq, Eq)]
pub enum End {
    /// The environment of the scope: all that is around it.
    Env,
    Process(ProcessId),
    Block(BlockId),
}

/// A path of a channel: it leads from an end to an end in its scope, and carries the signals of a list.
#[derive(Clone, Copy, PartialEq, Eq)]
pub struct ChannelPath {
    pub scope: Scope,
    pub from: End,
    pub to: End,
    pub signals: ListId,
}

/// A connect of a block: it joins channels that end at the block with channels in it that end at its border.
#[derive(Drop)]
pub struct Connect {
    pub block: BlockId,
    /// The paths of the channels around the block.
    pub outer: Vec<PathId>,
    /// The paths of the channels in the block.
    pub inner: Vec<PathId>,
}

/// A process, as far as signals on their way to it go.
#[derive(Clone, Copy, PartialEq, Eq)]
pub struct Process {
    pub scope: Scope,
    /// The signals that it inputs or saves by name, and those of its `signalset`.
    pub named: ListId,
    pub timers: ListId,
}

/// A block.
#[derive(Clone, Copy, PartialEq, Eq)]
pub struct Block {
    /// It has no channel of its own, so implied channels join its processes and its border.
    pub is_implied: bool,
}

/// All that joins the agents of a system.
pub struct Network {
    /// How many signals and timers there are.
    pub signals: u32,
    /// All lists of signals, by their number.
    pub lists: Vec<SignalList>,
    /// The system's own scope has no channel, so implied channels join its agents and its environment.
    pub is_implied: bool,
    /// The processes of the system and its blocks, by their number.
    pub processes: Vec<Process>,
    /// The blocks, by their number.
    pub blocks: Vec<Block>,
    /// The paths of all channels, by their number.
    pub paths: Vec<ChannelPath>,
    /// The connects of all blocks.
    pub connects: Vec<Connect>,
}

/// Written out, so that it is proved here, and not anew in each crate that drops one.
impl Drop for Network {
    fn drop(self) {
        let Network {
            signals: _,
            lists: _,
            is_implied: _,
            processes: _,
            blocks: _,
            paths: _,
            connects: _,
        } = self;
    }
}

/// Who sends a signal: the environment of the system, or a process in its scope.
#[derive(Clone, Copy, PartialEq, Eq)]
pub struct Source {
    pub end: End,
    pub scope: Scope,
}
