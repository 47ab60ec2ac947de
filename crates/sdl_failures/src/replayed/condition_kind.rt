//! Which condition of a state failed an instance (Z.102: enabling condition, continuous signal).

ghost use Rattle.std.specs.Prelude.{◌≡◌, IfOk, IfSome};
ghost use Rattle.sdl_failures.specs.FailedCondition.{FailsByKind, is_enabling, is_of_kind};

use crate::replayed::failing::find_failure;
use crate::replayed::halt::Halt;
use run_record::Record;
use sdl_system::{ConditionId, StateTable, System};
use std::alloc::{AllocError, Global};

/// To what in a state a condition belongs.
#[derive(Clone, Copy, PartialEq, Eq)]
pub enum ConditionKind {
    /// To an input: it is evaluated before the port is looked at.
    Enabling,
    /// To a continuous signal: it is evaluated where nothing is found in the port.
    Continuous,
}

/// The kind of the condition that failed the instance of a record, which is one of the records of a run of the system.
/// None: no condition did, or the records don't tell which one.
pub fn failed_condition(
    alloc: Global,
    system: &System,
    records: &[Record],
    trace: &Record,
) -> Result<Option<ConditionKind>, AllocError>
    ensures { IfOk result (λ found. IfSome found (FailsByKind system.now records.now trace.now)) }
{
    let found = find_failure(alloc, system, records, trace)?;
    let Some(failing) = found else {
        return Ok(None);
    };
    let Halt::Condition { state, condition } = failing.halt else {
        return Ok(None);
    };
    let Some(table) = failing.process.table(state) else {
        return Ok(None);
    };
    Ok(Some(kind_of(table, condition)))
}

/// The kind of a condition of a state with this table.
fn kind_of(table: &StateTable, number: ConditionId) -> ConditionKind
    ensures { is_of_kind result table.now number }
{
    if is_enabling(table, number) {
        return ConditionKind::Enabling;
    }
    ConditionKind::Continuous
}

/// Whether a condition of a state with this table is an enabling one.
fn is_enabling(table: &StateTable, number: ConditionId) -> bool
    ensures { result ≡ is_enabling table.now number }
{
    table
        .conditions
        .iter()
        .any(|one| one.condition.0 == number.0)
}
