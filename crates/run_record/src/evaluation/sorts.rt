//! The sorts of the values that signals and timers take.

ghost use Rattle.std.specs.Prelude.{◌≡◌};
ghost use Rattle.run_record.specs.Environment.{sorts_of};

use port_model::SignalId;
use sdl_system::{Sort, System};

/// The sorts of the values that a signal or a timer takes, in their order. None where the system has no such signal.
pub fn sorts_of(system: &System, signal: SignalId) -> &[Sort]
    ensures { result.now ≡ sorts_of system.now signal }
{
    match system.signal(signal) {
        Some(signal) => &signal.sorts,
        None => &[],
    }
}
