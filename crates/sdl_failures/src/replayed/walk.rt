//! The way through the last transition, statement by statement.

ghost use Rattle.std.specs.Prelude.{◌≡◌, IfOk, IfSome, None, Option, Some, slice_get, true};
ghost use Rattle.run_semantics.specs.Leads.{Counts};
ghost use Rattle.sdl_interp.specs.Walk.{ChoosesWay};
ghost use Rattle.sdl_failures.specs.Known.{here_by};
ghost use Rattle.sdl_failures.specs.Part.{parts_of};
ghost use Rattle.sdl_failures.specs.Replay.{Follows};
ghost use Rattle.sdl_system.specs.declared.id.NodeId as ids;
ghost use Rattle.sdl_system.specs.declared.statement.Way as ways;

use crate::replayed::part::{does_part, parts_of};
use crate::replayed::replay::Replay;
use crate::replayed::split::Goal;
use crate::replayed::spot::Spot;
use run_record::evaluate;
use sdl_system::{Decision, Node, NodeId, Statement};
use std::alloc::{AllocError, Global};

/// So many steps of a transition have no event: each of them counts a statement.
const MOST_STATEMENTS: usize = 10_000;

/// What came of a step.
#[derive(Clone, Copy, PartialEq, Eq)]
enum Step {
    /// The instance went on.
    On,
    /// It gets no further here. Nothing has changed.
    End,
    /// An event doesn't fit, and where the instance is isn't known any more.
    Lost,
}

impl<'r> Replay<'r> {
    /// Goes through the last transition as far as its events tell the way, and no further than to the goal. There are so
    /// many events at most. False: one of them doesn't fit.
    pub fn walk(&mut self, alloc: Global, goal: Goal, events: usize) -> Result<bool, AllocError>
        ensures { IfOk result (λ fits. fits ≡ true → Follows self.old self.new) }
    {
        for _step in 0..events.saturating_add(MOST_STATEMENTS) {
            let step = self.step(alloc, goal)?;
            match step {
                Step::On => {}
                Step::End => return Ok(true),
                Step::Lost => return Ok(false),
            }
        }
        Ok(true)
    }

    /// One part of a statement, or the way to the next statement.
    fn step(&mut self, alloc: Global, goal: Goal) -> Result<Step, AllocError>
        ensures on { IfOk result (λ step. step ≡ Step.On → Follows self.old self.new) }
        ensures same { IfOk result (λ step. step ≡ Step.End → self.new ≡ self.old) }
    {
        let Spot::At { node: number, part } = self.spot else {
            return Ok(Step::End);
        };
        let process = self.process;
        let Some(node) = process.node(number) else {
            return Ok(Step::End);
        };
        let step = self.do_part(alloc, goal, number, part, node)?;
        match step {
            Step::End => Ok(self.leave(alloc, number, part, node)),
            _ => Ok(step),
        }
    }

    /// Does the part of a statement that the next event tells, if it tells one and isn't the goal.
    fn do_part(
        &mut self,
        alloc: Global,
        goal: Goal,
        number: NodeId,
        part: usize,
        node: &Node,
    ) -> Result<Step, AllocError>
        requires spot { self.old.spot ≡ Spot.At number part }
        requires node { slice_get self.old.process.now.nodes.items number.0 ≡ Some node.now }
        ensures on { IfOk result (λ step. step ≡ Step.On → Follows self.old self.new) }
        ensures same { IfOk result (λ step. step ≡ Step.End → self.new ≡ self.old) }
    {
        let Some(next) = self.left.next() else {
            return Ok(Step::End);
        };
        if goal.is_met(next.entry) {
            return Ok(Step::End);
        }
        if !does_part(&node.statement, part, next.entry) {
            return Ok(Step::End);
        }
        let Some(after) = part.checked_add(1) else {
            return Ok(Step::End);
        };
        let own = self.own();
        let fits = self.known.tell(alloc, own, None, next.entry, next.values)?;
        if !fits {
            return Ok(Step::Lost);
        }
        self.spot = Spot::At {
            node: number,
            part: after,
        };
        self.left = next.rest;
        Ok(Step::On)
    }

    /// Goes to the next statement, if all parts of this one are done, or it is a decision with a way.
    fn leave(&mut self, alloc: Global, number: NodeId, part: usize, node: &Node) -> Step
        requires spot { self.old.spot ≡ Spot.At number part }
        requires node { slice_get self.old.process.now.nodes.items number.0 ≡ Some node.now }
        ensures on { result ≡ Step.On → Follows self.old self.new }
        ensures same { result ≡ Step.End → self.new ≡ self.old }
    {
        match &node.statement {
            Statement::Decision(asked) => self.decide(alloc, number, part, node, asked),
            _ => self.pass(number, part, node),
        }
    }

    /// Goes where the value of the question leads.
    fn decide(
        &mut self,
        alloc: Global,
        number: NodeId,
        part: usize,
        node: &Node,
        asked: &Decision,
    ) -> Step
        requires spot { self.old.spot ≡ Spot.At number part }
        requires node { slice_get self.old.process.now.nodes.items number.0 ≡ Some node.now }
        requires statement { node.now.statement ≡ Statement.Decision asked.now }
        ensures on { result ≡ Step.On → Follows self.old self.new }
        ensures same { result ≡ Step.End → self.new ≡ self.old }
    {
        if part != 0 {
            return Step::End;
        }
        match self.way_of(alloc, asked) {
            Some(to) => self.go_to(to),
            None => Step::End,
        }
    }

    /// Goes to the next statement, if all parts of this one are done.
    fn pass(&mut self, number: NodeId, part: usize, node: &Node) -> Step
        requires spot { self.old.spot ≡ Spot.At number part }
        requires node { slice_get self.old.process.now.nodes.items number.0 ≡ Some node.now }
        ensures on { result ≡ Step.On → Follows self.old self.new }
        ensures same { result ≡ Step.End → self.new ≡ self.old }
    {
        match behind(node, part) {
            Some(to) => self.go_to(to),
            None => Step::End,
        }
    }

    /// Where the value of the question leads. None: the question fails, there is no way, or it leads nowhere.
    fn way_of(&self, alloc: Global, asked: &Decision) -> Option<NodeId>
        ensures { (to : ids.NodeId) → result ≡ Some to → (way : ways.Way)
            × ChoosesWay (here_by self.now.system.now self.now.who self.now.known) asked.now way × (way.0 ≡ Some to) }
    {
        let knowledge = self.known.knowledge(self.system, self.who);
        let Ok(value) = evaluate(alloc, &asked.question, &knowledge) else {
            return None;
        };
        let way = asked.way(value)?;
        way.0
    }

    /// Counts a statement, and goes to the next one.
    fn go_to(&mut self, to: NodeId) -> Step
        ensures on { result ≡ Step.On → Counts self.old.known.store self.new.known.store
            × (self.new ≡ record self.old { spot = Spot.At to 0; known = self.new.known })
            × (self.new.known.port ≡ self.old.known.port) }
        ensures same { result ≡ Step.End → self.new ≡ self.old }
    {
        if !self.known.count() {
            return Step::End;
        }
        self.spot = Spot::At { node: to, part: 0 };
        Step::On
    }
}

/// The statement behind this one, of which so many parts are done: all of them.
fn behind(node: &Node, part: usize) -> Option<NodeId>
    ensures parts { IfSome result (λ _. parts_of node.now.statement ≡ Some part) }
    ensures next { IfSome result (λ to. node.now.next ≡ Some to) }
{
    let parts = parts_of(&node.statement)?;
    if parts != part {
        return None;
    }
    node.next
}
