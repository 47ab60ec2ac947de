//! The summaries of the records, which several threads make.

ghost use Rattle.std.specs.Prelude.{◌≡◌, ◌<◌, IfOk};
ghost use Rattle.settle_checks.specs.Summary.{AreSummaries};

use crate::account::look::Look;
use crate::summing::Summary;
use run_record::{Record, RunError};
use std::alloc::{AllocError, Global};
use std::thread;
use std::thread::Threads;

/// So many events at least are worth a thread.
const LEAST_EVENTS: usize = 4_096;

/// The summary of each record, which so many threads make at most. Memory: there was none for one. Lost, with its number:
/// times fall in a record.
pub fn summaries_of<R: Threads + Sync>(
    rt: &R,
    alloc: Global,
    workers: usize,
    records: &[Record],
) -> Result<Vec<Summary>, RunError>
    ensures { IfOk result (λ sums. AreSummaries records.now sums.items) }
{
    let threads = threads_for(workers, records);
    let mut looks = looks_at(alloc, records)?;
    make_all(rt, alloc, threads, looks.as_mut_slice());
    found_in(alloc, looks)
}

/// How many threads are to look at these records: not more than there are workers or records, and one for 4,096 events.
fn threads_for(workers: usize, records: &[Record]) -> usize
    ensures { 0 < result }
{
    let mut events: usize = 0;
    for trace in records {
        events = events.saturating_add(trace.len());
    }
    workers.min(records.len()).min(events / LEAST_EVENTS).max(1)
}

/// The looks at these records, before they are made.
fn looks_at(alloc: Global, records: &[Record]) -> Result<Vec<Look<'_>>, AllocError>
    ensures { IfOk result (λ looks. looks.items ≡ records.now) }
{
    let mut looks = Vec::with_capacity(alloc, records.len())?;
    for trace in records {
        looks.push(Look::new(trace))?;
    }
    Ok(looks)
}

/// Looks at the records, in at most so many threads.
fn make_all<R: Threads + Sync>(rt: &R, alloc: Global, threads: usize, looks: &mut [Look<'_>])
    requires { 0 < threads }
    ensures { looks.new ≡ looks.old }
{
    thread::for_each_mut(
        rt,
        looks,
        threads,
        &|_, look: &mut Look<'_>|
            ensures { look.new ≡ look.old }
        { look.make(alloc) },
    );
}

/// The summaries that were found.
fn found_in(alloc: Global, looks: Vec<Look<'_>>) -> Result<Vec<Summary>, RunError>
    ensures { IfOk result (λ sums. AreSummaries looks.entry.items sums.items) }
{
    let mut sums = Vec::with_capacity(alloc, looks.len())?;
    for look in looks {
        sums.push(look.into_summary()?)?;
    }
    Ok(sums)
}
