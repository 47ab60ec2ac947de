//! The table of the nodes of a process, as far as it is made.

ghost use Rattle.std.specs.Prelude.{◌≡◌, ◌<◌, ◌^◌, [], IfOk, IsOk, OnOk, option_map};
ghost use Rattle.build_statements.specs.Built.{place_of, placed, table_of};
ghost use Rattle.build_statements.specs.Contexts.{context_of};
ghost use Rattle.sdl_tree.specs.Views.{name_value};

use crate::context::Context;
use sdl_system::{LabelId, Node, NodeId, Statement};
use sdl_tree::Name;
use std::alloc::{AllocError, Global};

/// A label, and the node at which its statements begin.
#[derive(Clone, Copy)]
pub struct Mark {
    pub label: LabelId,
    pub node: NodeId,
}

/// The nodes of the transitions of a process that were added. What comes behind a join is known once all are.
#[derive(Drop)]
pub struct NodeTable {
    pub(crate) nodes: Vec<Node>,
    pub(crate) marks: Vec<Mark>,
}

impl NodeTable {
    ghost use Rattle.std.specs.Prelude.{◌++◌, ◌∷◌, Option, Some};
    ghost use Rattle.build_statements.specs.Built.{Built, Table, end_of, marks_for};
    ghost use Rattle.build_statements.specs.Made.{NothingMade};
    ghost use Rattle.sdl_system.specs.Body.{Body};
    ghost use Rattle.sdl_system.specs.Body as body;
    ghost use Rattle.sdl_system.specs.declared.id.NodeId as ids;

    /// A table without nodes.
    pub fn new(alloc: Global) -> Self
        ensures { NothingMade (table_of result) }
    {
        NodeTable {
            nodes: Vec::new(alloc),
            marks: Vec::new(alloc),
        }
    }

    /// Marks a node with a label, as that of a connection. What was added from the node on stands behind the label
    /// then.
    pub fn add_label(&mut self, label: LabelId, node: NodeId) -> Result<(), AllocError>
        ensures { OnOk result ((before : Table) (whole : Body) (to : Option ids.NodeId)
            → Built before (table_of self.old) (Some node) whole to
            → Built before (table_of self.new) (Some node) (body.label label whole) to) }
    {
        self.mark(label, node)
    }

    fn mark(&mut self, label: LabelId, node: NodeId) -> Result<(), AllocError>
        ensures nodes { self.new.nodes ≡ self.old.nodes }
        ensures marks { OnOk result (self.new.marks.items
            ≡ self.old.marks.items ++ record { label = label; node = node } ∷ []) }
    {
        self.marks.push(Mark { label, node })?;
        Ok(())
    }

    /// Adds a statement behind all nodes, with its label where one stands, and answers its place; where there is none,
    /// that at which the flow goes on.
    pub(crate) fn place(
        &mut self,
        context: &Context<'_, '_, '_>,
        name: &Option<Name>,
        statement: Option<Statement>,
        next: Option<NodeId>,
    ) -> Result<Option<NodeId>, AllocError>
        ensures table { OnOk result (table_of self.new ≡ placed (context_of context.now) (table_of self.old)
            (option_map name_value name.now) statement next) }
        ensures place { IfOk result (λ place. place ≡ place_of (table_of self.old) statement next) }
    {
        let Some(statement) = statement else {
            return Ok(next);
        };
        let node = self.add_node(Node { statement, next })?;
        self.mark_name(context, name, node)?;
        Ok(Some(node))
    }

    fn add_node(&mut self, node: Node) -> Result<NodeId, AllocError>
        ensures number { IfOk result (λ number. number ≡ end_of (table_of self.old)) }
        ensures nodes { OnOk result (self.new.nodes.items ≡ self.old.nodes.items ++ node ∷ []) }
        ensures marks { self.new.marks ≡ self.old.marks }
    {
        let number = numbered(self.nodes.len())?;
        self.nodes.push(node)?;
        Ok(number)
    }

    /// Marks the node with the label of this name, where one stands before it.
    fn mark_name(
        &mut self,
        context: &Context<'_, '_, '_>,
        name: &Option<Name>,
        node: NodeId,
    ) -> Result<(), AllocError>
        ensures nodes { self.new.nodes ≡ self.old.nodes }
        ensures marks { OnOk result (self.new.marks.items ≡ self.old.marks.items
            ++ marks_for (context_of context.now) (option_map name_value name.now) node) }
    {
        let Some(name) = name else {
            return Ok(());
        };
        match context.labels.get(&name.text) {
            None => Ok(()),
            Some(label) => self.mark(label, node),
        }
    }
}

/// The number of the node behind so many.
fn numbered(count: usize) -> Result<NodeId, AllocError>
    ensures same { IfOk result (λ number. number ≡ record { 0 = count }) }
    ensures fits { count < 2 ^ 32 → IsOk result }
{
    match u32::try_from(count) {
        Ok(number) => Ok(NodeId(number)),
        Err(_) => Err(AllocError),
    }
}
