//! What the sweeps of a run ask of its instances.

use crate::waking::wake;
use port_model::Fuse;
use run_record::RunError;
use sdl_script::ScriptLine;
use serial_sweeps::{Agenda, InstanceSet, Made};
use std::alloc::Global;
use std::sync::Wait;
use threads_ports::Run;
use threads_shared::{Environment, Own, Shared};

/// The instances of a run on threads, each in its slot, once the threads are joined: what they shared, what the calling
/// thread has for itself, the environment, and the greatest number that was given.
#[derive(Drop)]
pub struct Rest<'w, 'l, 's, 'p, 'e, J: Run, R: Wait + Copy> {
    pub shared: &'w Shared<'l, 's, 'p, J, R>,
    pub own: &'w mut Own<J>,
    pub environment: &'w mut Environment<'e, J>,
    pub given: u32,
}

impl<'w, 'l, 's, 'p, 'e, J: Run, R: Wait + Copy> InstanceSet for Rest<'w, 'l, 's, 'p, 'e, J, R> {
    ghost use Rattle.std.specs.Prelude.{◌≡◌, refl};
    ghost use Rattle.std.proofs.Common.{◌∙◌};
    ghost use Rattle.settle_rest.specs.Woken.{AreNumbers};

    type Error = RunError;

    ghost Fits = { λ ready _. AreNumbers ready };

    ghost AllRest = { λ _. Unit {0} };

    ghost numbers = { λ a. a.given };

    /// The script stays.
    ghost Reaches = { λ _ _ a _ b. (b.environment.ghost_name ≡ a.environment.ghost_name)
        × (b.environment.now.lines ≡ a.environment.now.lines) };

    fn given(&self) -> u32 {
        self.given
    }

    fn step(&mut self, _alloc: Global, agenda: &mut Agenda, number: u32) -> Result<Made, RunError> {
        self.step_at(agenda, number)
    }

    fn expire(&mut self, agenda: &mut Agenda, fuse: Fuse) -> Result<(), RunError> {
        let number = self.environment.expire(self.shared, fuse, agenda.clock)?;
        wake(&mut agenda.ready, number)?;
        Ok(())
    }

    /// The line is the next one of the environment, which has the script, too.
    fn hear(&mut self, agenda: &mut Agenda, _line: &ScriptLine) -> Result<(), RunError> {
        if self.environment.next_at().is_none() {
            return Ok(());
        }
        if let Some(number) = self.environment.hear(self.shared)? {
            wake(&mut agenda.ready, number)?;
        }
        Ok(())
    }

    ghost from_one = { λ ready _ number fits ready_one. fits number ready_one };

    ghost none_ready = { λ _ _ _ _. tt };

    ghost ticks = { λ _ _ _ _ _ _ _ _. (refl, refl) };

    ghost stays = { λ _ _ _. (refl, refl) };

    ghost goes_on = { λ _ _ _ _ _ _ _ one other. (other.0 ∙ one.0, other.1 ∙ one.1) };
}
