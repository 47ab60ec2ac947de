//! The world of an instance that makes a step: what it sees of the run, and what it does to others.

ghost use Rattle.std.specs.Prelude.{◌≡◌};
ghost use Rattle.serial_run.specs.StepWorld.{living_now};

use crate::world::effect::Effect;
use crate::world::effects::Effects;
use crate::world::living::Living;
use port_model::{Fuse, Item, SignalId, Ticks, Values};
use run_semantics::World;
use sdl_system::{Dest, ProcessId, Source, System, Target};
use std::alloc::AllocError;

/// The clock, who lives, and what the instance has done so far. Who lived as the step began is copied at the first
/// create.
#[derive(Drop)]
pub struct SerialWorld<'a, 'e> {
    pub system: &'a System,
    pub clock: Ticks,
    pub begun: &'a Living,
    pub changed: Option<Living>,
    pub effects: &'e mut Effects,
}

impl<'a, 'e> SerialWorld<'a, 'e> {
    /// Nothing is done so far, but for these acts.
    #[inline(always)]
    pub fn new(
        system: &'a System,
        clock: Ticks,
        living: &'a Living,
        effects: &'e mut Effects,
    ) -> Self
        ensures system { result.system.now ≡ system.now }
        ensures clock { result.clock ≡ clock }
        ensures begun { result.begun.now ≡ living.now }
        ensures changed { result.changed ≡ None }
        ensures effects { result.effects.now.items ≡ effects.old.items }
    {
        SerialWorld {
            system,
            clock,
            begun: living,
            changed: None,
            effects,
        }
    }

    /// Who lives now.
    fn living(&self) -> &Living
        ensures { result.now ≡ living_now self.now.changed self.now.begun.now }
    {
        self.changed.as_ref().unwrap_or(self.begun)
    }
}

impl<'a, 'e> World for SerialWorld<'a, 'e> {
    ghost use Rattle.serial_run.specs.StepWorld.{world_of};

    ghost value = { world_of };

    ghost prepared = { λ w. w.effects.now.has_room };

    fn now(&mut self) -> Ticks {
        self.clock
    }

    fn route(&mut self, system: &System, signal: SignalId, from: ProcessId, to: Dest) -> Target {
        let living = self.living().least();
        system.route(signal, Source::Process(from), to, living)
    }

    #[inline(always)]
    fn send(&mut self, target: Target, item: Item) -> Result<(), AllocError> {
        self.effects.push(Effect::Send { target, item })
    }

    fn prepare(&mut self) -> Result<(), AllocError> {
        self.effects.prepare()
    }

    fn arm(&mut self, fuse: Fuse) {
        self.effects.push_reserved(Effect::Arm(fuse));
    }

    fn create(
        &mut self,
        process: ProcessId,
        parent: u32,
        values: Values,
    ) -> Result<Option<u32>, AllocError> {
        let Some(number) = self.living().number_for(self.system, process) else {
            return Ok(None);
        };
        let mut changed = match self.changed.take() {
            Some(changed) => changed,
            None => self.begun.copied()?,
        };
        let made = Effect::Create {
            process,
            number,
            parent,
            values,
        };
        if self.effects.push(made).is_err() {
            self.changed = Some(changed);
            return Err(AllocError);
        }
        changed.add(process);
        self.changed = Some(changed);
        Ok(Some(number))
    }
}
