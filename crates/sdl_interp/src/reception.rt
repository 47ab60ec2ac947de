//! The values of a signal on their way to the variables of its input (Z.102: input).

ghost use Rattle.std.specs.Prelude.{◌≡◌, IfErr, OnOk};
ghost use Rattle.sdl_interp.specs.Stimulus.{Receives, ReceivesWrong};

use crate::transitions::{Machine, sort_of};
use port_model::Value;
use run_record::{Failure, place};
use sdl_system::{Process, VariableId};

/// Gives the values to the variables, one after the other. A value without a variable is dropped. Refused with
/// `NotNatural` at a negative value for a variable of the sort Natural; those before it have theirs then.
#[inline(always)]
pub fn hand_out(
    variables: &[Option<VariableId>],
    values: &[Value],
    process: &Process,
    machine: &mut Machine,
) -> Result<(), Failure>
    ensures trace { machine.new.trace ≡ machine.old.trace }
    ensures ok { OnOk result (Receives process.now variables.now values.now machine.old machine.new) }
    ensures err { IfErr result (ReceivesWrong process.now variables.now values.now machine.old machine.new) }
{
    for (variable, value) in variables.iter().zip(values) {
        if let Some(variable) = variable {
            let value = place(*value, sort_of(process, *variable))?;
            machine.store.variables.set(*variable, value);
        }
    }
    Ok(())
}
