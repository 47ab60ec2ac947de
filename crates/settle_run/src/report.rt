//! The end of a run whose records are closed.

ghost use Rattle.std.specs.Prelude.{◌≡◌, IfOk, IfSome, length};
ghost use Rattle.settle_run.specs.Course.{AreRowsOf, HasRows};
ghost use Rattle.settle_run.specs.Parts.{records_of};
ghost use Rattle.settle_meaning.specs.Settled.{IsSettledReport};

use crate::course::{course_of, senders_of};
use crate::gifts::all_given;
use crate::parts::{Parts, parts_of};
use crate::ports::settle_ports;
use crate::settled::Settled;
use run_record::{Report, RunError};
use settle_checks::account::laws::counted_have_put;
use settle_checks::{Ending, compare, end_of_run, some_memory, summaries_of};
use settle_closing::Closing;
use settle_closing::laws::{closed_have_histories, closed_have_put};
use std::marker::Brand;
use std::sync::Wait;
use std::thread::Threads;
use threads_ports::Run;
use threads_shared::{Environment, Shared};

/// A run whose records are closed, in the order of their numbers. Its report is settled: what the records say fits, and
/// for all behaviours that the processes of the system mean it is whole or cut, and nothing was lost between threads.
/// Where the course of the run is kept, so is it beside the report: each row is that of its record.
///
/// Lost, with a number: a record or a signal is missing, or what is recorded breaks what a report has to be, as `compare`,
/// `all_given`, `end_of_run` and the counts of the ports tell it. At most `workers` threads look at the records.
pub fn report_of<'p, J: Run, R: Threads + Wait + Copy + Sync>(
    shared: &Shared<'_, '_, 'p, J, R>,
    closings: Vec<Closing<'p, J, R>>,
    environment: Environment<'_, J>,
    ending: Ending,
    workers: usize,
) -> Result<Settled, RunError>
    ensures settled { IfOk result (λ settled.
        IsSettledReport shared.now.system.now environment.entry.lines ending.limit settled.report) }
    ensures rows { IfOk result (λ settled.
        IfSome settled.course (HasRows (length settled.report.records.items))) }
    ensures records { IfOk result (λ settled. settled.report.records.items ≡ records_of closings.entry.items) }
    ensures columns { IfOk result (λ settled.
        IfSome settled.course (AreRowsOf environment.entry.peers closings.entry.items)) }
{
    let alloc = shared.alloc;
    let system = shared.system;
    let whole = ending.whole;
    let lines = environment.lines();
    let line = environment.line();
    if line > lines.len() {
        return Err(RunError::Lost(0));
    }
    let (heard, _) = lines.split_at(line);
    environment.is_heard();
    let targets = Vec::from_slice(alloc, environment.targets())?;
    let Parts {
        records,
        gifts,
        logs,
        ports,
    } = parts_of(alloc, whole, closings, environment.into_peers())?;
    let all = records.as_slice();
    let sums = summaries_of(shared.rt, alloc, workers, all)?;
    compare(
        alloc,
        system,
        all,
        &sums,
        &ports.places,
        lines,
        heard,
        &targets,
    )?;
    all_given(alloc, all, gifts.as_slice())?;
    let end = end_of_run(lines, line, all, &sums, ending)?;
    let lacks_memory = some_memory(all, &sums);
    closed_have_histories();
    closed_have_put();
    counted_have_put();
    let places = ports.places.as_slice();
    let senders = senders_of(shared, places)?;
    let puts = settle_ports::<J, Brand, R>(shared, all, ports, whole, end, lacks_memory)?;
    let course = course_of(alloc, puts, senders, logs)?;
    let report = Report {
        records,
        end,
        whole,
    };
    Ok(Settled { report, course })
}
