//! The time of a step.

ghost use Rattle.std.specs.Prelude.{◌≡◌, ◌≤◌};
ghost use Rattle.run_semantics.specs.World.{IsReading};

use crate::transitions::Machine;
use port_model::Ticks;
use run_semantics::World;

/// Reads the clock. Where it lies before the time of the latest step, that time stays.
pub fn read_clock<W: World>(machine: &mut Machine, world: &mut W) -> Ticks
    ensures time { machine.new ≡ record machine.old { store = record machine.old.store { time = result } } }
    ensures later { machine.old.store.time ≤ result }
    ensures reading { IsReading (W.value world.old) machine.old.store.time result }
    ensures quiet { W.value world.new ≡ W.value world.old }
{
    let at = Ticks::later_of(world.now(), machine.store.time);
    machine.store.time = at;
    at
}
