//! Who lives.

ghost use Rattle.std.specs.Prelude.{◌≡◌, ◌≤◌, IsSomeAnd, drop, length, slice_get};
ghost use Rattle.serial_order.specs.RunState.{living_of, least_living};
ghost use Rattle.serial_run.specs.Serial.{HasEnded};

use crate::instances::Instances;
use run_record::Identity;
use sdl_interp::Position;
use sdl_system::ProcessId;

impl<'s> Instances<'s> {
    /// The instance at a place has ended, and lives no longer.
    pub fn leave(&mut self, place: usize)
        requires { HasEnded self.old place }
        ensures same { self.new ≡ record self.old { living = self.new.living } }
        ensures living { self.new.living ≡ living_of self.old.system.now self.old.instances.items }
    {
        let who = self.instances[place].who();
        let least = self.least_left(who, place);
        self.living.remove(who.process, least);
    }

    /// The least number of a living instance of the process of the one at a place, which has ended: that of one with a
    /// lesser number, or of one behind it.
    fn least_left(&self, who: Identity, place: usize) -> Option<u32>
        requires ended { HasEnded self.now place }
        requires who { IsSomeAnd (slice_get self.now.instances.items place) (λ i. i.who ≡ who) }
        ensures { result ≡ least_living self.now.instances.items who.process.0 }
    {
        let Some(least) = self.living.least_of(who.process) else {
            return None;
        };
        if least < who.pid {
            return Some(least);
        }
        self.next_living(who.process, place)
    }

    /// The least number of a living instance of a process at this place or behind it.
    fn next_living(&self, process: ProcessId, place: usize) -> Option<u32>
        requires { place ≤ length self.now.instances.items }
        ensures { result ≡ least_living (drop place self.now.instances.items) process.0 }
    {
        for instance in &self.instances[place..] {
            let who = instance.who();
            if who.process == process && instance.position() != Position::Ended {
                return Some(who.pid);
            }
        }
        None
    }
}
