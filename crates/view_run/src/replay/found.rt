//! The order that is found.

ghost use Rattle.std.specs.Prelude.{IfOk};
ghost use Rattle.view_run.specs.Found.{IsFound};

use crate::replay::finder::Finder;
use port_model::Course;
use run_order::Ending;
use run_record::Report;
use sdl_script::Script;
use sdl_system::System;
use std::alloc::{AllocError, Global};

/// What was found: the number of the instance whose event is told, for each event, one after the other; 0 for a line of
/// the script.
#[derive(Drop)]
pub enum Found {
    /// All events of the run.
    Told(Vec<u32>),
    /// No order was found of all of it. What is told is the beginning of a run. The record of the instance with this
    /// number is the first of which events are left; 0 where none is, but the run that was told isn't the report's.
    Stuck { told: Vec<u32>, number: u32 },
}

/// Finds one order of all of a run, by what was kept of its course. Refused for lack of memory alone.
///
/// What is told is executed, event by event. So it is a run, whatever the course says, and all of it is the run of the
/// report. It is stuck where something has to come before itself by the course, where the execution does something else
/// than a record says, and where an instance failed for lack of memory, since the execution doesn't.
pub fn find_order(
    alloc: Global,
    system: &System,
    script: &Script,
    report: &Report,
    course: &Course,
) -> Result<Found, AllocError>
    ensures { IfOk result (IsFound system.now script.now.lines.items report.now) }
{
    let mut finder = Finder::new(alloc, system, script, report, course)?;
    finder.run()?;
    let stuck = finder.first_left();
    match finder.finish()? {
        Ending::Whole(tellers) => Ok(Found::Told(tellers)),
        Ending::Part(told) => Ok(Found::Stuck {
            told,
            number: stuck,
        }),
    }
}
