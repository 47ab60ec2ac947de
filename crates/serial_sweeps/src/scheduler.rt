//! The state of a run, but for its instances.

ghost use Rattle.std.specs.Prelude.{◌≡◌, false};
ghost use Rattle.serial_sweeps.specs.Sweeps.{IsNothingDue, moment_of};

use crate::agenda::Agenda;
use sdl_script::ScriptLine;

/// A run that goes on, but for its instances. It may begin at any clock and with a rest of the script: where the script
/// has begun, after `catch_up`.
#[derive(Drop)]
pub struct Scheduler<'s> {
    /// The lines of the script that are left.
    pub script: &'s [ScriptLine],
    pub agenda: Agenda,
    /// Whether all have rested for the first time: then the script begins.
    pub begun: bool,
    /// The number behind which the sweep goes on, and how far it goes.
    pub turn: u32,
    pub bound: u32,
    /// How many transitions may still be made before the run is cut.
    pub left: u64,
}

impl<'s> Scheduler<'s> {
    /// A run before its first step, of instances that have the numbers up to `given`. Nothing of the script is heard
    /// before all have rested.
    pub fn new(agenda: Agenda, script: &'s [ScriptLine], given: u32, limit: u64) -> Self
        ensures moment { moment_of result ≡ record {
          clock = agenda.clock;
          begun = false;
          turn = 0;
          bound = given;
          left = limit;
          fuses = agenda.fuses;
          script = script.now;
        } }
        ensures ready { result.agenda.ready ≡ agenda.ready }
        ensures due { IsNothingDue (moment_of result) }
    {
        Scheduler {
            script,
            agenda,
            begun: false,
            turn: 0,
            bound: given,
            left: limit,
        }
    }
}
