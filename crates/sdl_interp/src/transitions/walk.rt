//! A transition, node by node (Z.102: transition, join, nextstate, stop).

ghost use Rattle.std.specs.Prelude.{◌≡◌, IfErr, IfOk, OnOk, Option};
ghost use Rattle.sdl_interp.specs.Running.{GoesOn, Reaches, StaysAmid, StaysItself, WorksSame};
ghost use Rattle.sdl_interp.specs.Walk.{CountsOne, Enters, EntersNone, IsPassed, PerformsAmiss, PerformsTo, Stops, VisitsAmiss, VisitsTo, WalksAmiss, WalksTo};
ghost use Rattle.sdl_system.specs.declared.id.StateId.{StateId};

use crate::transitions::count::count;
use crate::transitions::machine::{Position, make_room};
use crate::transitions::running::Core;
use port_model::Inbox;
use run_record::Failure;
use run_semantics::World;
use sdl_system::{Node, NodeId, StateId, Statement};
use std::alloc::Global;

impl<'s, P: Inbox + Drop> Core<'s, P> {
    /// Does a transition that began in the state `origin`, or with the start where there is none, from the node `begin`
    /// to the state that it leads to, or to the end of the instance.
    pub fn make<W: World>(
        &mut self,
        alloc: Global,
        origin: Option<StateId>,
        begin: NodeId,
        world: &mut W,
    ) -> Position
        requires { GoesOn P.owning P.since self.old }
        ensures same { StaysItself P.owning P.since self.old self.new }
        ensures reached { Reaches P.owning P.since result self.new }
        ensures walks { WalksTo P.owning begin origin self.old (W.value world.old) result self.new (W.value world.new) }
    {
        match self.walk(alloc, origin, begin, world) {
            Ok(position) => position,
            Err(why) => {
                self.fail(why);
                Position::Ended
            }
        }
    }

    fn walk<W: World>(
        &mut self,
        alloc: Global,
        origin: Option<StateId>,
        begin: NodeId,
        world: &mut W,
    ) -> Result<Position, Failure>
        requires { GoesOn P.owning P.since self.old }
        ensures same { StaysItself P.owning P.since self.old self.new }
        ensures reached { IfOk result (λ position. Reaches P.owning P.since position self.new) }
        ensures going { IfErr result (λ _. GoesOn P.owning P.since self.new) }
        ensures ok { IfOk result (λ position.
            WalksTo P.owning begin origin self.old (W.value world.old) position self.new (W.value world.new)) }
        ensures err { IfErr result
            (WalksAmiss P.owning begin origin self.old (W.value world.old) self.new (W.value world.new)) }
    {
        let mut at = Some(begin);
        while let Some(number) = at {
            let Some(node) = self.process.node(number) else {
                return Err(Failure::TooLong);
            };
            at = match &node.statement {
                Statement::NextState(state) => return self.enter(Some(*state)),
                Statement::SameState => return self.enter(origin),
                Statement::Stop => return self.stop(),
                _ => self.visit(alloc, node, world)?,
            };
        }
        // No path runs off the end of its body.
        Err(Failure::TooLong)
    }

    /// Counts a statement that is no end of a transition, does its action, and answers where the flow goes on.
    fn visit<W: World>(
        &mut self,
        alloc: Global,
        node: &Node,
        world: &mut W,
    ) -> Result<Option<NodeId>, Failure>
        requires going { GoesOn P.owning P.since self.old }
        requires passed { IsPassed node.now.statement }
        ensures same { StaysItself P.owning P.since self.old self.new }
        ensures going { GoesOn P.owning P.since self.new }
        ensures counts { OnOk result (CountsOne self.old.machine.store self.new.machine.store) }
        ensures ok { IfOk result (λ next. (origin : Option StateId)
            → VisitsTo P.owning node.now origin self.old (W.value world.old) next self.new (W.value world.new)) }
        ensures err { IfErr result (λ why. (origin : Option StateId)
            → VisitsAmiss P.owning node.now origin self.old (W.value world.old) self.new (W.value world.new) why) }
    {
        match &node.statement {
            Statement::Decision(decision) => {
                let way = self.choose(alloc, decision)?;
                Ok(way.0)
            }
            _ => {
                count(&mut self.machine)?;
                self.act(alloc, &node.statement, world)?;
                Ok(node.next)
            }
        }
    }

    /// Carries out a statement, before the flow goes on after it; a join does nothing.
    fn act<W: World>(
        &mut self,
        alloc: Global,
        statement: &Statement,
        world: &mut W,
    ) -> Result<(), Failure>
        requires { GoesOn P.owning P.since self.old }
        ensures amid { StaysAmid P.owning P.since self.old self.new }
        ensures ok { OnOk result
            (PerformsTo P.owning statement.now self.old (W.value world.old) self.new (W.value world.new)) }
        ensures err { IfErr result
            (PerformsAmiss P.owning statement.now self.old (W.value world.old) self.new (W.value world.new)) }
    {
        match statement {
            Statement::Task(assignments) => self.assign_all(alloc, assignments),
            Statement::Output(output) => self.send_all(alloc, output, world),
            Statement::Set(settings) => self.set_all(alloc, settings, world),
            Statement::Reset(timers) => self.reset_all(alloc, timers),
            Statement::Create(creation) => self.create(alloc, creation, world),
            _ => Ok(()),
        }
    }

    /// A state that isn't there leads nowhere.
    fn enter(&mut self, state: Option<StateId>) -> Result<Position, Failure>
        requires { GoesOn P.owning P.since self.old }
        ensures same { StaysItself P.owning P.since self.old self.new }
        ensures reached { IfOk result (λ position. Reaches P.owning P.since position self.new) }
        ensures going { IfErr result (λ _. GoesOn P.owning P.since self.new) }
        ensures ok { IfOk result (λ position. Enters P.owning P.since state self.old position self.new) }
        ensures err { IfErr result (EntersNone state self.old.process.now) }
        ensures kept { IfErr result (λ _. WorksSame P.owning self.old self.new) }
    {
        let Some(state) = state else {
            return Err(Failure::Undefined);
        };
        if self.process.state(state).is_none() {
            return Err(Failure::Undefined);
        }
        make_room(&mut self.machine, 0)?;
        self.machine.trace.next_state(state);
        Ok(Position::In(state))
    }

    /// Stops the instance. All that stands in its port or comes into it is discarded from now on.
    fn stop(&mut self) -> Result<Position, Failure>
        requires { GoesOn P.owning P.since self.old }
        ensures same { StaysItself P.owning P.since self.old self.new }
        ensures reached { IfOk result (λ position. Reaches P.owning P.since position self.new) }
        ensures going { IfErr result (λ _. GoesOn P.owning P.since self.new) }
        ensures ok { IfOk result (λ position. Stops P.owning P.since self.old position self.new) }
        ensures err { IfErr result (λ why. why ≡ Failure.Memory) }
        ensures kept { IfErr result (λ _. WorksSame P.owning self.old self.new) }
    {
        make_room(&mut self.machine, 0)?;
        self.machine.trace.stop();
        self.inbox.stop();
        Ok(Position::Ended)
    }
}
