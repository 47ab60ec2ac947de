//! The end of a run on threads: the calling thread goes on with it, and several look at its records.

ghost use Rattle.std.specs.Prelude.{IfOk, IfSome, length};
ghost use Rattle.settle_run.specs.Course.{HasRows};
ghost use Rattle.settle_meaning.specs.Settled.{IsSettledReport};

use crate::report::report_of;
use crate::settled::Settled;
use port_model::Ticks;
use run_record::RunError;
use settle_checks::Ending;
use settle_closing::{Closing, close};
use settle_rest::run_rest;
use std::sync::Wait;
use std::thread::Threads;
use threads_ports::Run;
use threads_shared::{Environment, Own, Seated, Shared};

/// How many numbers there are.
const MOST_NUMBERS: u32 = 1_000;

/// Settles a run, at this time: goes on with it on this thread where fewer transitions than `limit` are made, closes
/// all records, and gives the report, with what was kept for the order of all. All threads of the run are joined: the
/// caller's condition. The report is settled: for all behaviours that the processes of the system mean it is whole or
/// cut, and nothing was lost between threads. A course has a row for each record.
///
/// Memory: no room for the records, or for what is sent. Lost, with a number: an instance that is entered isn't in its
/// slot; in a whole run one doesn't rest; or as `report_of` tells it. At most `workers` threads look at the records.
pub fn settle<J: Run, R: Threads + Wait + Copy + Sync>(
    shared: &Shared<'_, '_, '_, J, R>,
    own: &mut Own<J>,
    environment: Environment<'_, J>,
    at: Ticks,
    limit: u64,
    workers: usize,
) -> Result<Settled, RunError>
    ensures settled { IfOk result (λ settled.
        IsSettledReport shared.now.system.now environment.entry.lines limit settled.report) }
    ensures rows { IfOk result (λ settled.
        IfSome settled.course (HasRows (length settled.report.records.items))) }
{
    let mut environment = environment;
    // All threads are joined, so the sum has all transitions, and nobody but this thread adds to it.
    let left = limit.saturating_sub(shared.tables.signs.moves());
    let at = run_rest(shared, own, &mut environment, at, left)?;
    let whole = shared.tables.signs.moves() < limit;
    let closings = close_all(shared, own, whole, at)?;
    let ending = Ending { whole, limit };
    let settled = report_of(shared, closings, environment, ending, workers)?;
    Ok(settled)
}

/// Closes the records of all instances that are entered, by ascending numbers.
fn close_all<'p, J: Run, R: Wait + Copy>(
    shared: &Shared<'_, '_, 'p, J, R>,
    own: &mut Own<J>,
    whole: bool,
    at: Ticks,
) -> Result<Vec<Closing<'p, J, R>>, RunError> {
    let mut closings = Vec::new(shared.alloc);
    for number in 1..=MOST_NUMBERS {
        if shared.common.entries.find(number).is_some() {
            closings.push(close(leave(shared, number)?, shared, own, whole, at)?)?;
        }
    }
    Ok(closings)
}

/// Takes the instance of this number out of its slot. Lost: it isn't there.
fn leave<'s, 'p, J: Run, R: Wait + Copy>(
    shared: &Shared<'_, 's, 'p, J, R>,
    number: u32,
) -> Result<Seated<'s, 'p, J, R>, RunError> {
    let Some(slot) = shared.slots.of(number) else {
        return Err(RunError::Lost(number));
    };
    match slot.leave(shared.rt) {
        Some(seated) => Ok(seated),
        None => Err(RunError::Lost(number)),
    }
}
