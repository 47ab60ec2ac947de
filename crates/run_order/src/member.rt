//! An instance in the order of all.

ghost use Rattle.std.specs.Prelude.{◌≡◌, ◌≢◌, ◌⊎◌, [], IfOk, drop, false, map};
ghost use Rattle.run_order.specs.Kept.{IsKeptFrom, IsMove};
ghost use Rattle.run_order.specs.OrderState.{fresh};
ghost use Rattle.run_order.specs.Woven.{acts_of, fits};
ghost use Rattle.sdl_interp.specs.Instance.{Keeps};
ghost use Rattle.serial_run.specs.StepWorld.{effect_of};

use crate::answers::Answers;
use crate::outbox::Outbox;
use crate::replay_world::ReplayWorld;
use port_model::{Alone, Ticks};
use sdl_interp::{Instance, Position, Stepped};
use sdl_system::System;
use serial_run::Effects;
use std::alloc::{AllocError, Global};

/// An instance with a port of its own; what its latest step has still to do outside, in its order; and, if that begins
/// with an output, whether it was looked up where the signal goes.
#[derive(Drop)]
pub struct Member<'s> {
    pub instance: Instance<'s, Alone>,
    pub pending: Outbox,
    pub looked: bool,
}

/// What came of a step.
#[derive(Clone, Copy, PartialEq, Eq)]
pub enum Move {
    /// A transition, or a discard, of which the first event is told.
    Began,
    /// What fails the instance in a state, which is told as the instance ends.
    Failing,
    /// There is nothing to do.
    Nothing,
    /// What the step did outside isn't what its events say. This is never so where the process means something.
    Amiss,
}

impl<'s> Member<'s> {
    /// An instance that has done nothing yet.
    pub fn fresh(alloc: Global, instance: Instance<'s, Alone>) -> Self
        ensures { result ≡ fresh instance.entry }
    {
        Member {
            instance,
            pending: Outbox::new(alloc),
            looked: false,
        }
    }

    /// One step of a living instance that has done all that its latest step does outside, at the clock's time.
    /// `answers` says which targets and numbers it gets, and the effects are lent to it.
    pub fn step(
        &mut self,
        alloc: Global,
        system: &System,
        clock: Ticks,
        answers: &mut Answers<'_>,
        effects: &mut Effects,
    ) -> Result<Move, AllocError>
        requires done { self.old.pending ≡ [] }
        requires lives { self.old.instance.position ≢ Position.Ended }
        ensures moves { IfOk result (λ made. IsMove system.now clock made self.old self.new) }
        ensures keeps { Keeps self.old.instance self.new.instance }
    {
        self.instance.draws_nothing();
        let from = self.instance.trace().len();
        effects.clear();
        let mut world = ReplayWorld::new(system, clock, answers, effects);
        let stepped = self.instance.step(alloc, &mut world);
        self.instance.draws_nothing();
        let ReplayWorld { effects, .. } = world;
        match stepped {
            Stepped::Idle => Ok(Move::Nothing),
            Stepped::Moved => self.finish(from, effects, Move::Began),
            Stepped::Ended { counts } => {
                if counts {
                    return self.finish(from, effects, Move::Began);
                }
                self.finish(from, effects, Move::Failing)
            }
        }
    }

    /// Keeps what the events of the record from this place on have still to do outside, where these are their effects.
    fn finish(&mut self, from: usize, effects: &mut Effects, made: Move) -> Result<Move, AllocError>
        requires { self.old.pending ≡ [] }
        ensures instance { self.new.instance ≡ self.old.instance }
        ensures made { IfOk result (λ came. ((came ≡ Move.Amiss)
            × (fits (acts_of (drop from self.old.instance.events)) (map effect_of effects.old.items) ≡ false))
            ⊎ ((came ≡ made) × IsKeptFrom from (map effect_of effects.old.items) self.old.instance self.new)) }
    {
        self.looked = false;
        let fits = self.pending.fill(self.instance.trace(), from, effects)?;
        if fits {
            return Ok(made);
        }
        Ok(Move::Amiss)
    }
}
