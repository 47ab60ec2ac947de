//! The names of the joins that the start reaches, in the order in which a quick search finds them. Nothing that is
//! proved rests on it.

use crate::beginnings::Beginning;
use build_names::{Faults, Names};
use sdl_tree::{
    Action, ActionStatement, AnswerPart, Name, Terminator, TerminatorStatement, Transition,
};
use std::alloc::{AllocError, Global};

/// A place on paths: a beginning, a label, or what stands behind a decision.
#[derive(Drop)]
struct Node<'t> {
    /// The places to which paths go on from here.
    next: Vec<usize>,
    /// The joins to which they come from here.
    joins: Vec<&'t Name>,
}

#[derive(Drop)]
struct Graph<'t> {
    alloc: Global,
    nodes: Vec<Node<'t>>,
    /// The places of the labels.
    labels: Names<'t, usize>,
}

/// The names of the joins that the start reaches, each behind one on the way to it.
pub(crate) fn order<'t>(
    alloc: Global,
    beginnings: &[Beginning<'t>],
) -> Result<Vec<&'t Name>, AllocError> {
    let mut graph = Graph {
        alloc,
        nodes: Vec::new(alloc),
        labels: Names::new(alloc),
    };
    let starts = graph.beginnings(beginnings)?;
    graph.search(starts)
}

impl<'t> Graph<'t> {
    /// Adds the places of these transitions, and says at which of them the start begins.
    fn beginnings(&mut self, beginnings: &[Beginning<'t>]) -> Result<Vec<usize>, AllocError> {
        let mut starts = Vec::new(self.alloc);
        for beginning in beginnings {
            let node = self.beginning(beginning)?;
            if beginning.is_start {
                starts.push(node)?;
            }
        }
        Ok(starts)
    }

    /// Adds the places of a transition, and says at which it begins.
    fn beginning(&mut self, beginning: &Beginning<'t>) -> Result<usize, AllocError> {
        let node = self.node()?;
        if let Some(label) = beginning.label {
            self.labels.declare(label, node, &mut Faults::new())?;
        }
        self.transition(node, beginning.transition)?;
        Ok(node)
    }

    /// A new place.
    fn node(&mut self) -> Result<usize, AllocError> {
        let number = self.nodes.len();
        self.nodes.push(Node {
            next: Vec::new(self.alloc),
            joins: Vec::new(self.alloc),
        })?;
        Ok(number)
    }

    fn add_next(&mut self, node: usize, next: usize) -> Result<(), AllocError> {
        if node < self.nodes.len() {
            self.nodes[node].next.push(next)?;
        }
        Ok(())
    }

    fn add_join(&mut self, node: usize, name: &'t Name) -> Result<(), AllocError> {
        if node < self.nodes.len() {
            self.nodes[node].joins.push(name)?;
        }
        Ok(())
    }

    /// The place of a statement behind this one: a new one, if a label stands before it.
    fn labelled(&mut self, node: usize, label: &'t Option<Name>) -> Result<usize, AllocError> {
        match label {
            None => Ok(node),
            Some(label) => {
                let here = self.node()?;
                self.labels.declare(label, here, &mut Faults::new())?;
                self.add_next(node, here)?;
                Ok(here)
            }
        }
    }

    /// Adds the places of a transition that begins here, and says from which one paths run off its end, if they do.
    #[cycle(transition)]
    fn transition(
        &mut self,
        node: usize,
        transition: &'t Transition,
    ) -> Result<Option<usize>, AllocError> {
        let last = self.statements(node, &transition.actions)?;
        self.ending(last, &transition.terminator)
    }

    #[cycle(transition)]
    fn statements(
        &mut self,
        node: usize,
        statements: &'t [ActionStatement],
    ) -> Result<usize, AllocError> {
        let mut here = node;
        for statement in statements {
            here = self.statement(here, statement)?;
        }
        Ok(here)
    }

    #[cycle(transition)]
    fn statement(
        &mut self,
        node: usize,
        statement: &'t ActionStatement,
    ) -> Result<usize, AllocError> {
        let here = self.labelled(node, &statement.label)?;
        self.action(here, &statement.action)
    }

    #[cycle(transition)]
    fn action(&mut self, node: usize, action: &'t Action) -> Result<usize, AllocError> {
        match action {
            Action::Decision {
                parts,
                otherwise,
                ..
            } => {
                let behind = self.node()?;
                self.answer_parts(node, behind, parts)?;
                self.else_part(node, behind, otherwise)?;
                Ok(behind)
            }
            _ => Ok(node),
        }
    }

    #[cycle(transition)]
    fn answer_parts(
        &mut self,
        node: usize,
        behind: usize,
        parts: &'t [AnswerPart],
    ) -> Result<(), AllocError> {
        for part in parts {
            self.answer_part(node, behind, part)?;
        }
        Ok(())
    }

    #[cycle(transition)]
    fn answer_part(
        &mut self,
        node: usize,
        behind: usize,
        part: &'t AnswerPart,
    ) -> Result<(), AllocError> {
        let last = self.transition(node, &part.transition)?;
        self.go_on(last, behind)
    }

    #[cycle(transition)]
    fn else_part(
        &mut self,
        node: usize,
        behind: usize,
        otherwise: &'t Option<Transition>,
    ) -> Result<(), AllocError> {
        match otherwise {
            None => Ok(()),
            Some(part) => {
                let last = self.transition(node, part)?;
                self.go_on(last, behind)
            }
        }
    }

    /// Paths that run off the end of a part go on behind the decision.
    fn go_on(&mut self, last: Option<usize>, behind: usize) -> Result<(), AllocError> {
        match last {
            None => Ok(()),
            Some(node) => self.add_next(node, behind),
        }
    }

    fn ending(
        &mut self,
        node: usize,
        ending: &'t Option<TerminatorStatement>,
    ) -> Result<Option<usize>, AllocError> {
        match ending {
            None => Ok(Some(node)),
            Some(statement) => {
                let here = self.labelled(node, &statement.label)?;
                if let Terminator::Join { label, .. } = &statement.terminator {
                    self.add_join(here, label)?;
                }
                Ok(None)
            }
        }
    }

    /// The names of the joins to which paths from these places come.
    fn search(&self, ready: Vec<usize>) -> Result<Vec<&'t Name>, AllocError> {
        let mut search = Search::new(self.alloc, self.nodes.len(), ready)?;
        for step in 0..self.nodes.len() {
            if step < search.ready.len() {
                let node = search.ready[step];
                self.visit(node, &mut search)?;
            }
        }
        Ok(search.names)
    }

    fn visit(&self, node: usize, search: &mut Search<'t>) -> Result<(), AllocError> {
        if node < self.nodes.len() {
            for next in &self.nodes[node].next {
                search.add(*next)?;
            }
            for name in &self.nodes[node].joins {
                self.follow(name, search)?;
            }
        }
        Ok(())
    }

    /// A join goes on at the place of its label.
    fn follow(&self, name: &'t Name, search: &mut Search<'t>) -> Result<(), AllocError> {
        match self.labels.get(&name.text) {
            None => Ok(()),
            Some(node) => {
                search.add_name(node, name)?;
                search.add(node)
            }
        }
    }
}

/// The state of a search: the places and joins that it has found so far.
#[derive(Drop)]
struct Search<'t> {
    /// The places that were found, in this order.
    ready: Vec<usize>,
    /// Whether it was, for each place.
    is_seen: Vec<bool>,
    /// Whether a join on its label was found, for each place.
    is_named: Vec<bool>,
    /// The names of those joins, each once.
    names: Vec<&'t Name>,
}

impl<'t> Search<'t> {
    /// A search among so many places, which begins at these.
    fn new(alloc: Global, count: usize, ready: Vec<usize>) -> Result<Self, AllocError> {
        let is_seen = vec![in alloc; false; count]?;
        let is_named = vec![in alloc; false; count]?;
        Ok(Search {
            ready,
            is_seen,
            is_named,
            names: Vec::new(alloc),
        })
    }

    fn add(&mut self, node: usize) -> Result<(), AllocError> {
        if node < self.is_seen.len() && !self.is_seen[node] {
            self.is_seen[node] = true;
            self.ready.push(node)?;
        }
        Ok(())
    }

    fn add_name(&mut self, node: usize, name: &'t Name) -> Result<(), AllocError> {
        if node < self.is_named.len() && !self.is_named[node] {
            self.is_named[node] = true;
            self.names.push(name)?;
        }
        Ok(())
    }
}
