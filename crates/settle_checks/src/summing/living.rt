//! Who lives on from the beginning to the end of a run, and how many.

ghost use Rattle.std.specs.Prelude.{◌≡◌, ◌++◌, ◌∷◌, [], List, IfOk, IfSome, IsTrue, Some, count_by};
ghost use Rattle.port_model.specs.Timers.{earlier};
ghost use Rattle.run_record.specs.Record.{RecordValue};
ghost use Rattle.settle_checks.specs.Least.{Adds, HasLeast, lasting_of};
ghost use Rattle.settle_meaning.specs.Living as meaning;
ghost use Rattle.settle_meaning.specs.Living.{AreLiving};
ghost use Rattle.settle_meaning.specs.Starts as starts;
ghost use Rattle.settle_meaning.specs.Starts.{AreWithin, IsWithin};
ghost use Rattle.settle_checks.specs.Summary.{AreSummaries, IsSummary};

use crate::summing::summary::Summary;
use port_model::Pid;
use run_record::Record;
use sdl_system::{Process, ProcessId, System};
use std::alloc::{AllocError, Global};

/// For each process of so many the least number of its instances with which the system begins and that never end. None:
/// a record is of no process of these.
pub fn lived(
    alloc: Global,
    processes: usize,
    records: &[Record],
    sums: &[Summary],
) -> Result<Option<Vec<Option<u32>>>, AllocError>
    requires { AreSummaries records.now sums.now }
    ensures { IfOk result (λ first. IfSome first (λ list. AreLiving records.now list.items)) }
{
    let mut first = nobody(alloc, processes)?;
    for k in 0..records.len() {
        if k >= sums.len() || !add_lasting(&mut first, &records[k], &sums[k]) {
            return Ok(None);
        }
    }
    Ok(Some(first))
}

/// Of so many processes nobody.
fn nobody(alloc: Global, processes: usize) -> Result<Vec<Option<u32>>, AllocError>
    ensures { IfOk result (λ first. HasLeast [] first.items) }
{
    let mut first = Vec::new(alloc);
    for _process in 0..processes {
        first.push(None)?;
    }
    Ok(first)
}

/// Adds the instance of a record, if the system begins with it and it never ends. False: it is of no process of these.
fn add_lasting(first: &mut Vec<Option<u32>>, trace: &Record, sum: &Summary) -> bool
    requires { IsSummary trace.now sum.now }
    ensures { IsTrue result → (done : List RecordValue) → HasLeast (lasting_of done) first.old.items
        → HasLeast (lasting_of (done ++ trace.now ∷ [])) first.new.items }
{
    if !is_lasting(trace, sum) {
        return true;
    }
    add_living(first, trace.process(), trace.pid())
}

/// Whether the system begins with the instance, and it never ends.
fn is_lasting(trace: &Record, sum: &Summary) -> bool
    requires { IsSummary trace.now sum.now }
    ensures { result ≡ meaning.is_lasting trace.now }
{
    is_null(trace.parent()) && !sum.fate.ends
}

/// Whether it is no instance.
pub fn is_null(pid: Pid) -> bool
    ensures { result ≡ meaning.is_null pid }
{
    match pid {
        Pid::Null => true,
        _ => false,
    }
}

/// Adds an instance of a process. False: it is no process of these.
fn add_living(first: &mut Vec<Option<u32>>, process: ProcessId, number: u32) -> bool
    ensures { IsTrue result → Adds first.old.items process number first.new.items }
{
    let index = process.0 as usize;
    if index >= first.len() {
        return false;
    }
    first[index] = least_of(first[index], number);
    true
}

/// The least of some numbers, with one more.
fn least_of(least: Option<u32>, number: u32) -> Option<u32>
    ensures { result ≡ earlier least (Some number) }
{
    match least {
        None => Some(number),
        Some(other) => Some(other.min(number)),
    }
}

/// Whether no more instances of each process live on than may, or than the system begins with.
pub fn are_within(system: &System, records: &[Record], sums: &[Summary]) -> bool
    requires { AreSummaries records.now sums.now }
    ensures { IsTrue result → AreWithin system.now records.now }
{
    let processes = system.processes();
    for number in 0..processes.len() {
        if !is_within(&processes[number], number, records, sums) {
            return false;
        }
    }
    true
}

/// Whether it is so of the process of this number.
fn is_within(process: &Process, number: usize, records: &[Record], sums: &[Summary]) -> bool
    requires { AreSummaries records.now sums.now }
    ensures { IsTrue result → IsWithin records.now number process.now }
{
    match process.maximum {
        None => true,
        Some(most) => count_living(number, records, sums) <= most.max(process.initial) as usize,
    }
}

/// How many instances of the process of this number live on.
fn count_living(number: usize, records: &[Record], sums: &[Summary]) -> usize
    requires { AreSummaries records.now sums.now }
    ensures { result ≡ count_by (starts.lives_on number) records.now }
{
    let mut count = 0;
    for k in 0..records.len().min(sums.len()) {
        if lives_on(number, &records[k], &sums[k]) {
            count += 1;
        }
    }
    count
}

/// Whether the instance is of the process of this number and lives on.
fn lives_on(number: usize, trace: &Record, sum: &Summary) -> bool
    requires { IsSummary trace.now sum.now }
    ensures { result ≡ starts.lives_on number trace.now }
{
    trace.process().0 as usize == number && !sum.fate.ends
}
