//! Who steps next.

ghost use Rattle.std.specs.Prelude.{◌≡◌, ◌<◌, ◌≤◌, ◌+◌, ◌⊎◌, ℕ, Contains, IfNone, IfOk, IfSome, IsTrue, OnOk, length};
ghost use Rattle.serial_sweeps.specs.Sweeps.{IsNext, IsNothingDue, KeepsTime, NoneBetween, moment_of};

use crate::instance_set::{InstanceSet, Made};
use crate::scheduler::Scheduler;
use std::alloc::Global;

/// Whose turn it is: the number of an instance, and how far the sweep goes in which it steps.
#[derive(Clone, Copy)]
pub struct Turn {
    pub number: u32,
    pub bound: u32,
}

impl<'s> Scheduler<'s> {
    /// Steps until every instance rests, or no transition is left. Says whether every instance rests.
    pub fn settle<A: InstanceSet>(
        &mut self,
        alloc: Global,
        instances: &mut A,
    ) -> Result<bool, A::Error>
        requires fits { A.Fits self.old.agenda.ready instances.old }
        requires due { IsNothingDue (moment_of self.old) }
        ensures fits { OnOk result (A.Fits self.new.agenda.ready instances.new) }
        ensures same { KeepsTime self.old self.new }
        ensures due { OnOk result (IsNothingDue (moment_of self.new)) }
        ensures runs { (last : ℕ) → OnOk result (A.Reaches last (moment_of self.old) instances.old
            (moment_of self.new) instances.new) }
        ensures rest { IfOk result (λ rest. IsTrue rest → A.AllRest instances.new × (0 < self.new.left)) }
        ensures cut { IfOk result (λ rest. IsTrue rest ⊎ (self.new.left ≡ 0)) }
    {
        while self.left > 0 {
            if !self.make_transition(alloc, instances)? {
                return Ok(true);
            }
        }
        Ok(false)
    }

    /// The instances step in their order until one of them makes a transition. Says whether one does: else all rest.
    fn make_transition<A: InstanceSet>(
        &mut self,
        alloc: Global,
        instances: &mut A,
    ) -> Result<bool, A::Error>
        requires fits { A.Fits self.old.agenda.ready instances.old }
        requires due { IsNothingDue (moment_of self.old) }
        requires left { 0 < self.old.left }
        ensures fits { OnOk result (A.Fits self.new.agenda.ready instances.new) }
        ensures same { KeepsTime self.old self.new }
        ensures due { OnOk result (IsNothingDue (moment_of self.new)) }
        ensures runs { (last : ℕ) → OnOk result (A.Reaches last (moment_of self.old) instances.old
            (moment_of self.new) instances.new) }
        ensures moved { IfOk result (λ moved. IsTrue moved → self.new.left < self.old.left) }
        ensures still { IfOk result (λ moved. IsTrue moved ⊎ (A.AllRest instances.new × (self.new.left ≡ self.old.left))) }
    {
        while let Some(turn) = self.next_turn(instances) {
            if self.step(alloc, instances, turn)? {
                return Ok(true);
            }
        }
        Ok(false)
    }

    /// The next one in this sweep of those that may have something to do, else the first in a new one.
    fn next_turn<A: InstanceSet>(&self, instances: &A) -> Option<Turn>
        requires { A.Fits self.now.agenda.ready instances.now }
        ensures next { IfSome result (λ turn.
            IsNext self.now.agenda.ready (moment_of self.now) (A.numbers instances.now) turn.number turn.bound) }
        ensures none { IfNone result ((n : ℕ) → Contains self.now.agenda.ready n → ⊥) }
    {
        if let Some(number) = self.next_in_sweep() {
            return Some(Turn {
                number,
                bound: self.bound,
            });
        }
        let number = self.agenda.ready.next_after(0)?;
        Some(Turn {
            number,
            bound: instances.given(),
        })
    }

    /// The next one in this sweep of those that may have something to do.
    fn next_in_sweep(&self) -> Option<u32>
        ensures next { IfSome result (λ number. Contains self.now.agenda.ready number × (self.now.turn < number)
            × (number ≤ self.now.bound) × NoneBetween self.now.agenda.ready self.now.turn number) }
        ensures none { IfNone result (NoneBetween self.now.agenda.ready self.now.turn (self.now.bound + 1)) }
    {
        let number = self.agenda.ready.next_after(self.turn)?;
        if number <= self.bound {
            Some(number)
        } else {
            None
        }
    }

    /// One step of the instance whose turn it is. Says whether it was a transition, which is taken off the limit: else
    /// one fewer may have something to do.
    fn step<A: InstanceSet>(
        &mut self,
        alloc: Global,
        instances: &mut A,
        turn: Turn,
    ) -> Result<bool, A::Error>
        requires fits { A.Fits self.old.agenda.ready instances.old }
        requires due { IsNothingDue (moment_of self.old) }
        requires left { 0 < self.old.left }
        requires next { IsNext self.old.agenda.ready (moment_of self.old) (A.numbers instances.old) turn.number turn.bound }
        ensures fits { OnOk result (A.Fits self.new.agenda.ready instances.new) }
        ensures same { KeepsTime self.old self.new }
        ensures due { OnOk result (IsNothingDue (moment_of self.new)) }
        ensures runs { (last : ℕ) → OnOk result (A.Reaches last (moment_of self.old) instances.old
            (moment_of self.new) instances.new) }
        ensures moved { IfOk result (λ moved. IsTrue moved → self.new.left < self.old.left) }
        ensures still { IfOk result (λ moved. IsTrue moved ⊎ ((self.new.left ≡ self.old.left)
            × (length self.new.agenda.ready < length self.old.agenda.ready))) }
    {
        match instances.step(alloc, &mut self.agenda, turn.number)? {
            Made::Nothing => Ok(false),
            Made::Failure => {
                self.pass(turn);
                Ok(false)
            }
            Made::Transition => {
                self.pass(turn);
                self.left -= 1;
                Ok(true)
            }
        }
    }

    /// The sweep goes on behind this turn.
    fn pass(&mut self, turn: Turn)
        ensures { self.new ≡ record self.old { turn = turn.number; bound = turn.bound } }
    {
        self.turn = turn.number;
        self.bound = turn.bound;
    }
}
