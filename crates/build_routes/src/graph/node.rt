//! The nodes of the graph in which signals flow from a source, and their numbers.

ghost use Rattle.std.specs.Prelude.{◌≡◌};
ghost use Rattle.build_routes.specs.Nodes.{number};

use crate::network::PathId;
use sdl_system::{BlockId, ProcessId};

/// Where a signal may be on its way.
#[derive(Clone, Copy, PartialEq, Eq)]
pub enum Node {
    /// At its source.
    Source,
    /// In the environment of the system.
    Env,
    /// On implied channels of the system that lead from the agent in which the source is.
    First,
    /// On implied channels of the system that lead from another block.
    Others,
    /// On a path of a channel.
    Path(PathId),
    /// At the border of a block, on its way in by all that no connect names.
    Into(BlockId),
    /// At the border of a block, on its way out by all that leads from the block.
    OutOf(BlockId),
    /// At the border of a block, on its way in by what this connect names.
    IntoBy(u32),
    /// At the border of a block, on its way out by what this connect names.
    OutBy(u32),
    /// At a process.
    Process(ProcessId),
}

impl Node {
    /// The number of the node in the graph.
    pub fn number(self) -> usize
        ensures { result ≡ number self }
    {
        match self {
            Node::Source => 0,
            Node::Env => 8,
            Node::First => 16,
            Node::Others => 24,
            Node::Path(path) => 8 * path.0 as usize + 1,
            Node::Into(block) => 8 * block.0 as usize + 2,
            Node::OutOf(block) => 8 * block.0 as usize + 3,
            Node::IntoBy(connect) => 8 * connect as usize + 4,
            Node::OutBy(connect) => 8 * connect as usize + 5,
            Node::Process(process) => 8 * process.0 as usize + 6,
        }
    }
}
