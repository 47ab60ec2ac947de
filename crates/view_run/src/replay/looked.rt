//! Whether an instance had looked at its port before a condition failed it (Z.102: enabling condition, continuous
//! signal).

ghost use Rattle.std.specs.Prelude.{IfOk};
ghost use Rattle.std.specs.List.{AllZip};
ghost use Rattle.view_run.specs.Looked.{HadLooked};

use run_record::{Entry, Record};
use sdl_failures::{ConditionKind, failed_condition};
use sdl_system::{StateId, StateTable, System};
use std::alloc::{AllocError, Global};

/// Of each record whether its instance had looked at its port before a condition failed it. Where the records don't tell
/// which condition did, or none did, it counts as one that had.
pub fn looked_before_failures(
    alloc: Global,
    system: &System,
    records: &[Record],
) -> Result<Vec<bool>, AllocError>
    ensures { IfOk result (λ looked. AllZip (HadLooked system.now records.now) records.now looked.items) }
{
    let mut looked = Vec::with_capacity(alloc, records.len())?;
    for trace in records {
        looked.push(had_looked(alloc, system, records, trace)?)?;
    }
    Ok(looked)
}

/// Whether the instance of a record had looked at its port before a condition failed it. Which one did is asked only
/// where the state has both kinds of conditions.
fn had_looked(
    alloc: Global,
    system: &System,
    records: &[Record],
    trace: &Record,
) -> Result<bool, AllocError>
    ensures { IfOk result (HadLooked system.now records.now trace.now) }
{
    if !may_have_looked(system, trace) {
        return Ok(true);
    }
    match failed_condition(alloc, system, records, trace)? {
        Some(ConditionKind::Enabling) => Ok(false),
        Some(ConditionKind::Continuous) | None => Ok(true),
    }
}

/// Whether a record ends as a condition fails in a state that has both kinds of conditions.
fn may_have_looked(system: &System, trace: &Record) -> bool {
    if !fails_in_a_state(trace) {
        return false;
    }
    let (Some(process), Some(state)) = (system.process(trace.process()), last_state(trace)) else {
        return false;
    };
    match process.table(state) {
        Some(table) => has_both_kinds(table),
        None => false,
    }
}

/// Whether a record ends as a condition fails.
fn fails_in_a_state(trace: &Record) -> bool {
    match trace.last() {
        Some(last) => matches!(last.entry, Entry::FailedAt { .. }),
        None => false,
    }
}

/// The state in which the instance of a record was last.
fn last_state(trace: &Record) -> Option<StateId> {
    let mut state = None;
    for told in trace.reader() {
        if let Entry::NextState { state: next } = told.entry {
            state = Some(next);
        }
    }
    state
}

/// Whether a state with this table has enabling conditions and continuous signals.
fn has_both_kinds(table: &StateTable) -> bool {
    !table.conditions.is_empty() && !table.continuous.is_empty()
}
