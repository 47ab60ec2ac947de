//! What the sweeps of a run ask of its instances.

use crate::instances::Instances;
use crate::listener::Listener;
use crate::step::step;
use crate::world::Effects;
use port_model::{Fuse, KeptWords};
use sdl_script::ScriptLine;
use serial_sweeps::{Agenda, InstanceSet, Made};
use std::alloc::{AllocError, Global};

/// The instances of a run, the acts of a step, who hears of transitions, and whose events were told, if that is kept: the
/// number of the instance for each event, one after the other, and 0 for a line of the script.
#[derive(Drop)]
pub struct Stepping<'s, L> {
    pub instances: Instances<'s>,
    pub effects: Effects,
    pub listener: L,
    pub order: KeptWords,
}

impl<'s, L: Listener> InstanceSet for Stepping<'s, L> {
    ghost use Rattle.std.specs.Prelude.{All};
    ghost use Rattle.serial_run.specs.Serial.{IsSerial};
    ghost use Rattle.sdl_interp.specs.Instance.{IsAtRest};
    ghost use Rattle.serial_run.specs.Advances.{Reaches};
    ghost use Rattle.serial_run.specs.ExecutionLaws.{reaches_on, reaches_same};
    ghost use Rattle.serial_run.specs.Meanings.{none_ready};
    ghost use Rattle.serial_run.specs.Ticks.{tick_reaches};

    type Error = AllocError;

    ghost Fits = { λ ready a. IsSerial ready a.instances };

    ghost AllRest = { λ a. All IsAtRest a.instances.instances.items };

    ghost numbers = { λ a. a.instances.living.given };

    ghost Reaches = { λ last m a n b. Reaches last m a.instances a.order n b.instances b.order };

    fn given(&self) -> u32 {
        self.instances.living.given()
    }

    fn step(
        &mut self,
        alloc: Global,
        agenda: &mut Agenda,
        number: u32,
    ) -> Result<Made, AllocError> {
        let made = step(
            &mut self.instances,
            alloc,
            agenda,
            number,
            &mut self.effects,
            &mut self.order,
        )?;
        if made == Made::Transition {
            self.listener.transition(agenda.clock);
        }
        Ok(made)
    }

    fn expire(&mut self, agenda: &mut Agenda, fuse: Fuse) -> Result<(), AllocError> {
        self.instances.fire(agenda, fuse)
    }

    fn hear(&mut self, agenda: &mut Agenda, line: &ScriptLine) -> Result<(), AllocError> {
        self.order.note(0);
        self.instances.put_line(agenda, line)
    }

    ghost from_one = { λ ready a number fits marked. (fits.marked.there number marked).0 };

    ghost none_ready = { λ ready a. none_ready ready a.instances };

    ghost ticks = { λ last time ready m a. tick_reaches last time ready m a.instances a.order };

    ghost stays = { λ last m a. reaches_same last m a.instances a.order };

    ghost goes_on = { λ last m n o a b c.
        reaches_on last m n o a.instances b.instances c.instances a.order b.order c.order };
}
