//! Whether each create of null has a cause.

ghost use Rattle.std.specs.Prelude.{◌≡◌, All, IsTrue, Some};
ghost use Rattle.std.specs.List.{list_any};
ghost use Rattle.run_record.specs.Record.{RecordValue};
ghost use Rattle.settle_meaning.specs.Identities as meaning;
ghost use Rattle.settle_meaning.specs.Identities.{HasCause, HasNoNumber};
ghost use Rattle.settle_checks.specs.Summary.{AreSummaries};
ghost use Rattle.sdl_system.specs.declared.id.ProcessId.{ProcessId};
ghost use Rattle.settle_checks.specs.declared.summing.summary.Summary.{Summary};

use crate::summing::made::MOST_INSTANCES;
use crate::summing::summary::Summary;
use run_record::Record;
use sdl_system::{ProcessId, System};

/// Whether each create of null has a cause: as many records of its process as may live, or as many in all as there may
/// be, or a failure for lack of memory.
pub fn are_caused(system: &System, records: &[Record], sums: &[Summary]) -> bool
    requires { AreSummaries records.now sums.now }
    ensures { IsTrue result → All (λ (trace : RecordValue). All (HasCause system.now records.now) trace.events)
        records.now }
{
    if records.len() >= MOST_INSTANCES || some_memory(records, sums) {
        return true;
    }
    for sum in sums {
        if !are_all_full(system, records, &sum.creating.refused) {
            return false;
        }
    }
    true
}

/// Whether an instance failed for lack of memory.
pub fn some_memory(records: &[Record], sums: &[Summary]) -> bool
    requires { AreSummaries records.now sums.now }
    ensures { result ≡ list_any meaning.fails_by_memory records.now }
{
    any_lacks_memory(sums)
}

fn any_lacks_memory(sums: &[Summary]) -> bool
    ensures { result ≡ list_any (λ (sum : Summary). sum.fate.lacks_memory) sums.now }
{
    sums.iter().any(|sum| sum.fate.lacks_memory)
}

/// Whether there are as many records of each of these processes as may live.
fn are_all_full(system: &System, records: &[Record], processes: &[ProcessId]) -> bool
    ensures { IsTrue result
        → All (λ (process : ProcessId). HasNoNumber system.now records.now process) processes.now }
{
    let mut last = None;
    for process in processes {
        if is_again(last, *process) {
            continue;
        }
        if !is_full(system, records, *process) {
            return false;
        }
        last = Some(*process);
    }
    true
}

/// Whether it is the process that was looked at last.
fn is_again(last: Option<ProcessId>, process: ProcessId) -> bool
    ensures { IsTrue result → last ≡ Some process }
{
    match last {
        None => false,
        Some(other) => other.0 == process.0,
    }
}

/// Whether there are as many records of the process as may live.
fn is_full(system: &System, records: &[Record], process: ProcessId) -> bool
    ensures { IsTrue result → HasNoNumber system.now records.now process }
{
    let Some(one) = system.process(process) else {
        return true;
    };
    match one.maximum {
        None => false,
        Some(most) => most as usize <= count_of(records, process),
    }
}

/// How many records there are of the process.
fn count_of(records: &[Record], process: ProcessId) -> usize
    ensures { result ≡ meaning.count_of records.now process }
{
    records
        .iter()
        .filter(|trace| trace.process().0 == process.0)
        .count()
}
