//! The two sides of a block's border.

ghost use Rattle.std.specs.Prelude.{◌≡◌};
ghost use Rattle.build_routes.specs.Steps.{arrives, departs, touches};

use crate::graph::node::Node;
use crate::graph::place::{same_end, same_scope};
use crate::network::{End, Scope};
use sdl_system::BlockId;

/// Which of the two lists of a connect.
#[derive(Clone, Copy, PartialEq, Eq)]
pub enum Side {
    /// The channels around the block.
    Outer,
    /// The channels in it.
    Inner,
}

impl Side {
    /// Whether a path in this scope touches the border of the block, on this side, with this end.
    pub fn touches(self, block: BlockId, scope: Scope, end: End) -> bool
        ensures { result ≡ touches self block scope end }
    {
        match self {
            Side::Outer => same_scope(scope, Scope::System) && same_end(end, End::Block(block)),
            Side::Inner => same_scope(scope, Scope::Block(block)) && same_end(end, End::Env),
        }
    }

    /// Where a signal is that comes to the border on this side, to go on by what the connect names on the other.
    pub fn arrives(self, connect: u32) -> Node
        ensures { result ≡ arrives self connect }
    {
        match self {
            Side::Outer => Node::IntoBy(connect),
            Side::Inner => Node::OutBy(connect),
        }
    }

    /// Where a signal is that goes on from the border on this side.
    pub fn departs(self, connect: u32) -> Node
        ensures { result ≡ departs self connect }
    {
        match self {
            Side::Outer => Node::OutBy(connect),
            Side::Inner => Node::IntoBy(connect),
        }
    }
}
