//! Marks among the entries of a record.

ghost use Rattle.std.specs.Prelude.{◌≡◌, IfOk};
ghost use Rattle.run_record.specs.Told.{event_told};
ghost use Rattle.view_coverage.specs.Marks.{mark_of, variable_in};

use port_model::Value;
use run_record::{Entry, Told};
use sdl_system::{ProcessId, System, VariableId};
use std::alloc::AllocError;

/// The variable of the marks of a process, by the system without marks: the one after all that it has. So many
/// variables that this has no number take more memory than there is.
pub fn variable_in(system: &System, process: ProcessId) -> Result<Option<VariableId>, AllocError>
    ensures { IfOk result (λ variable. variable ≡ variable_in system.now process) }
{
    let Some(process) = system.process(process) else {
        return Ok(None);
    };
    match u32::try_from(process.variables.len()) {
        Ok(count) => Ok(Some(VariableId(count))),
        Err(_) => Err(AllocError),
    }
}

/// The number of the part of a decision of which an entry is the mark.
pub fn mark_of(variable: VariableId, told: Told<'_>) -> Option<i64>
    ensures { result ≡ mark_of variable (event_told told.entry) }
{
    match told.entry {
        Entry::Task {
            variable: to,
            value: Value::Int(part),
        } if to == variable => Some(part),
        _ => None,
    }
}
