//! Nodes whose joins are linked.

ghost use Rattle.std.specs.Prelude.{◌≡◌, ◌<◌, ◌==◌, List, None, Some, cond, length, map, IfOk, OnOk};
ghost use Rattle.std.specs.Option.{option_or};
ghost use Rattle.build_statements.specs.Built.{table_of};
ghost use Rattle.build_statements.specs.Linked.{first_mark, linked, linked_nodes, next_of, place_at};
ghost use Rattle.build_statements.specs.Made.{Closed, Made};
ghost use Rattle.sdl_system.specs.Body.{Body};
ghost use Rattle.sdl_system.specs.Table.{IsTableOf};
ghost use Rattle.sdl_system.specs.declared.id.LabelId as labels;
ghost use Rattle.sdl_system.specs.declared.id.NodeId as ids;

use crate::nodes::table::{Mark, NodeTable};
use sdl_system::{LabelId, Node, NodeId, Statement};
use std::alloc::{AllocError, Global};

impl NodeTable {
    /// The nodes, where the node behind a join is the first that its label marks. Where the table is made of bodies
    /// that are whole, the nodes are the table of these bodies.
    pub fn finish(self, alloc: Global) -> Result<Vec<Node>, AllocError>
        ensures nodes { IfOk result (λ nodes. nodes.items ≡ linked_nodes (table_of self)) }
        ensures table { IfOk result (λ nodes. (bodies : List Body) (entries : List ids.NodeId)
            → Made bodies entries (table_of self) → Closed bodies → IsTableOf bodies entries nodes.items) }
    {
        let NodeTable { nodes, marks } = self;
        let places = places_of(alloc, &marks)?;
        link_all(alloc, nodes, &places)
    }
}

/// The node that each label marks first, by the label's number.
fn places_of(alloc: Global, marks: &[Mark]) -> Result<Vec<Option<NodeId>>, AllocError>
    ensures { IfOk result (λ places. (label : labels.LabelId)
        → place_at places.items label ≡ first_mark marks.now label) }
{
    let mut places = Vec::new(alloc);
    for mark in marks {
        put(&mut places, mark.label, mark.node)?;
    }
    Ok(places)
}

/// Puts a node at the place of its label, where none stands yet.
fn put(places: &mut Vec<Option<NodeId>>, label: LabelId, node: NodeId) -> Result<(), AllocError>
    ensures { OnOk result ((other : labels.LabelId) → place_at places.new.items other
        ≡ option_or (place_at places.old.items other) (cond (label.0 == other.0) (Some node) None)) }
{
    let index = label.0 as usize;
    pad(places, index)?;
    places[index] = places[index].or(Some(node));
    Ok(())
}

/// Adds places without nodes, so that there is one of this number.
fn pad(places: &mut Vec<Option<NodeId>>, index: usize) -> Result<(), AllocError>
    ensures within { OnOk result (index < length places.new.items) }
    ensures same { OnOk result ((other : labels.LabelId) → place_at places.new.items other
        ≡ place_at places.old.items other) }
{
    while places.len() <= index {
        places.push(None)?;
    }
    Ok(())
}

fn link_all(
    alloc: Global,
    nodes: Vec<Node>,
    places: &[Option<NodeId>],
) -> Result<Vec<Node>, AllocError>
    ensures { IfOk result (λ list. list.items ≡ map (linked (place_at places.now)) nodes.items) }
{
    let mut list = Vec::new(alloc);
    for node in nodes {
        list.push(link(node, places))?;
    }
    Ok(list)
}

fn link(node: Node, places: &[Option<NodeId>]) -> Node
    ensures { result ≡ linked (place_at places.now) node }
{
    let next = next_of(&node.statement, node.next, places);
    Node {
        statement: node.statement,
        next,
    }
}

/// Gives the node after a statement: after a join the node at the place of its label.
fn next_of(statement: &Statement, next: Option<NodeId>, places: &[Option<NodeId>]) -> Option<NodeId>
    ensures { result ≡ next_of (place_at places.now) statement.now next }
{
    match statement {
        Statement::Join(label) => places.get(label.0 as usize).copied().unwrap_or(None),
        _ => next,
    }
}
