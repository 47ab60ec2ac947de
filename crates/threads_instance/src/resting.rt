//! What the state of its slot asks of an instance.

use crate::queue::Rests;
use crate::thread_instance::ThreadInstance;
use port_model::Inbox;
use threads_ports::Run;

impl<'s, J: Run, P: Inbox + Drop> Rests for ThreadInstance<'s, J, P> {
    ghost use Rattle.std.specs.Prelude.{◌≡◌};
    ghost use Rattle.sdl_interp.specs.declared.transitions.machine.Position.TheVariants as at;
    ghost use Rattle.sdl_interp.specs.Instance.{IsAtRest};

    ghost at_rest = { λ m. IsAtRest m.instance };

    ghost ended = { λ m. m.instance.position ≡ at.Ended };
}
