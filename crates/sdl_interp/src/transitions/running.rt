//! An instance in the midst of a step.

ghost use Rattle.std.specs.Prelude.{◌≡◌};
ghost use Rattle.sdl_interp.specs.Running.{GoesOn, failed, known_by, seen};

use crate::transitions::machine::Machine;
use port_model::Inbox;
use run_record::{Failure, Knowledge};
use sdl_system::{Process, System};

/// An instance in the midst of a step: the system and the process that it is of, what it knows and did so far, and its
/// port.
#[derive(Drop)]
pub struct Core<'s, P: Inbox + Drop> {
    pub system: &'s System,
    pub process: &'s Process,
    pub machine: Machine,
    pub inbox: P,
}

impl<'s, P: Inbox + Drop> Core<'s, P> {
    /// What an expression is evaluated by.
    #[inline(always)]
    pub fn knowledge(&self) -> Knowledge<'_, P>
        requires { GoesOn P.owning P.since self.now }
        ensures { result ≡ known_by (seen P.owning P.since self.now) }
    {
        Knowledge::new(
            self.system,
            self.machine.who(),
            &self.machine.store,
            &self.inbox,
        )
    }

    /// Records that the transition fails, and ends the instance: what stands in its port or comes into it is discarded.
    pub fn fail(&mut self, why: Failure)
        requires { GoesOn P.owning P.since self.old }
        ensures { seen P.owning P.since self.new ≡ failed why (seen P.owning P.since self.old) }
    {
        self.machine.trace.failed(why);
        self.inbox.stop();
    }
}
