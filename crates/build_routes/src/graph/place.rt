//! Which node of the graph stands for which end of a channel.

ghost use Rattle.std.specs.Prelude.{◌≡◌, ◌&&◌};
ghost use Rattle.build_routes.specs.Steps.{begin_of, end_of, first_of, from_block, is_implied, node_if, on_first, on_implied, same_end, same_scope};
ghost use Rattle.build_routes.specs.declared.graph.node.Node.TheVariants.{Source as AtSource};

use crate::graph::node::Node;
use crate::network::{End, Network, Scope, Source};
use sdl_system::BlockId;

pub fn same_scope(left: Scope, right: Scope) -> bool
    ensures { result ≡ same_scope left right }
{
    match (left, right) {
        (Scope::System, Scope::System) => true,
        (Scope::Block(left), Scope::Block(right)) => left.0 == right.0,
        _ => false,
    }
}

pub fn same_end(left: End, right: End) -> bool
    ensures { result ≡ same_end left right }
{
    match (left, right) {
        (End::Env, End::Env) => true,
        (End::Process(left), End::Process(right)) => left.0 == right.0,
        (End::Block(left), End::Block(right)) => left.0 == right.0,
        _ => false,
    }
}

pub fn node_if(is: bool, node: Node) -> Option<Node>
    ensures { result ≡ node_if is node }
{
    if is { Some(node) } else { None }
}

/// The source, where the path leads from it.
pub fn start_of(source: Source, scope: Scope, from: End) -> Option<Node>
    ensures { result ≡ node_if (same_scope scope source.scope && same_end from source.end) AtSource }
{
    node_if(
        same_scope(scope, source.scope) && same_end(from, source.end),
        Node::Source,
    )
}

/// Where a path begins, for a signal that comes over the border of a block and wasn't brought by a connect.
pub fn begin_of(scope: Scope, from: End, is_named: bool) -> Option<Node>
    ensures { result ≡ begin_of scope from is_named }
{
    match (scope, from) {
        (Scope::System, End::Block(block)) => Some(Node::OutOf(block)),
        (Scope::Block(block), End::Env) => node_if(!is_named, Node::Into(block)),
        _ => None,
    }
}

/// Where a path ends.
pub fn end_of(scope: Scope, to: End, is_named: bool) -> Option<Node>
    ensures { result ≡ end_of scope to is_named }
{
    match (scope, to) {
        (_, End::Process(process)) => Some(Node::Process(process)),
        (Scope::System, End::Env) => Some(Node::Env),
        (Scope::System, End::Block(block)) => Some(Node::Into(block)),
        (Scope::Block(block), End::Env) => node_if(!is_named, Node::OutOf(block)),
        (Scope::Block(_), End::Block(_)) => None,
    }
}

/// Whether the scope has no channel.
pub fn is_implied(network: &Network, scope: Scope) -> bool
    ensures { result ≡ is_implied network.now scope }
{
    match scope {
        Scope::System => network.is_implied,
        Scope::Block(block) => match network.blocks.get(block.0 as usize) {
            Some(block) => block.is_implied,
            None => false,
        },
    }
}

/// Where a signal is on an implied channel of the scope that comes from a block, or over the border of the block.
pub fn on_implied(scope: Scope) -> Node
    ensures { result ≡ on_implied scope }
{
    match scope {
        Scope::System => Node::Others,
        Scope::Block(block) => Node::Into(block),
    }
}

/// Where a signal is on the first implied channel from the source, if that is in this scope.
pub fn on_first(scope: Scope, source: Source) -> Option<Node>
    ensures { result ≡ on_first scope source }
{
    match scope {
        Scope::System => Some(Node::First),
        Scope::Block(_) => node_if(same_scope(scope, source.scope), Node::Source),
    }
}

/// On which implied channels of the system a signal comes from this block.
pub fn from_block(block: BlockId, source: Source) -> Node
    ensures { result ≡ from_block block source }
{
    if same_scope(Scope::Block(block), source.scope) {
        Node::First
    } else {
        Node::Others
    }
}

/// Where the first implied channels of a source in this scope begin, beside those to processes.
pub fn first_of(scope: Scope) -> Node
    ensures { result ≡ first_of scope }
{
    match scope {
        Scope::System => Node::First,
        Scope::Block(block) => Node::OutOf(block),
    }
}
