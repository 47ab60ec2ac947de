//! The world of an instance that makes a step again.

ghost use Rattle.std.specs.Prelude.{◌≡◌};

use crate::answers::Answers;
use port_model::{Fuse, Item, SignalId, Ticks, Values};
use run_semantics::World;
use sdl_system::{Dest, ProcessId, Source, System, Target};
use serial_run::{Effect, Effects};
use std::alloc::AllocError;

/// The clock, what the record says of what the step can't know, and what the instance has done so far. A target is one
/// to which the routes lead, by some living instances: by which, is asked later.
#[derive(Drop)]
pub struct ReplayWorld<'a, 'r, 'e> {
    pub system: &'a System,
    pub clock: Ticks,
    pub answers: &'e mut Answers<'r>,
    pub effects: &'e mut Effects,
}

impl<'a, 'r, 'e> ReplayWorld<'a, 'r, 'e> {
    /// Nothing is done so far, except for these effects.
    pub fn new(
        system: &'a System,
        clock: Ticks,
        answers: &'e mut Answers<'r>,
        effects: &'e mut Effects,
    ) -> Self
        ensures system { result.system.now ≡ system.now }
        ensures clock { result.clock ≡ clock }
        ensures effects { result.effects.now.items ≡ effects.old.items }
    {
        ReplayWorld {
            system,
            clock,
            answers,
            effects,
        }
    }
}

impl<'a, 'r, 'e> World for ReplayWorld<'a, 'r, 'e> {
    ghost use Rattle.run_order.specs.ReplayWorld.{world_of};

    ghost value = { world_of };

    ghost prepared = { λ w. w.effects.now.has_room };

    fn now(&mut self) -> Ticks {
        self.clock
    }

    fn route(&mut self, system: &System, signal: SignalId, from: ProcessId, to: Dest) -> Target {
        let told = self.answers.target();
        let living = self.answers.living_for(told);
        system.route(signal, Source::Process(from), to, living)
    }

    fn send(&mut self, target: Target, item: Item) -> Result<(), AllocError> {
        self.effects.push(Effect::Send { target, item })
    }

    fn prepare(&mut self) -> Result<(), AllocError> {
        self.effects.prepare()
    }

    fn arm(&mut self, fuse: Fuse) {
        self.effects.push_reserved(Effect::Arm(fuse));
    }

    fn create(
        &mut self,
        process: ProcessId,
        parent: u32,
        values: Values,
    ) -> Result<Option<u32>, AllocError> {
        let Some(number) = self.answers.number() else {
            return Ok(None);
        };
        self.effects.push(Effect::Create {
            process,
            number,
            parent,
            values,
        })?;
        Ok(Some(number))
    }
}
