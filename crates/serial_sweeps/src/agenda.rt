//! What the instances see and change of a run.

ghost use Rattle.std.specs.Prelude.{◌≡◌, []};

use crate::ready_set::ReadySet;
use port_model::Ticks;
use sdl_timers::Wheel;
use std::alloc::Global;

/// The part of a run that its instances see and change as they step: the clock, who may have something to do, and the
/// fuses that wait.
#[derive(Drop)]
pub struct Agenda {
    pub clock: Ticks,
    pub ready: ReadySet,
    /// The fuses that wait for their time.
    pub fuses: Wheel,
}

impl Agenda {
    /// The agenda at time 0, with nobody and nothing on it. Takes no memory.
    pub fn new(alloc: Global) -> Self
        ensures clock { result.clock ≡ 0 }
        ensures ready { result.ready ≡ [] }
        ensures fuses { result.fuses ≡ [] }
    {
        Agenda {
            clock: Ticks::new(0),
            ready: ReadySet::new(alloc),
            fuses: Wheel::new(alloc),
        }
    }
}
