//! The names that the numbers of an event stand for. A number that the system doesn't have gives the empty name.

ghost use Rattle.std.specs.Prelude.{◌≡◌};
ghost use Rattle.sdl_report.specs.Name.{name_of_state, name_of_variable};
ghost use Rattle.sdl_report.specs.Name.{process_name, signal_name, state_name, variable_name};

use port_model::SignalId;
use sdl_system::{Process, ProcessId, StateId, System, VariableId};

/// The name of a signal or a timer, empty where the system doesn't have its number.
pub fn signal_name(system: &System, signal: SignalId) -> &str
    ensures { result.now ≡ signal_name system.now signal }
{
    match system.signal(signal) {
        Some(signal) => signal.name.as_str(),
        None => "",
    }
}

/// The name of a process, empty where the system doesn't have its number.
pub fn process_name(system: &System, process: ProcessId) -> &str
    ensures { result.now ≡ process_name system.now process }
{
    match system.process(process) {
        Some(process) => process.name.as_str(),
        None => "",
    }
}

/// The name of a state of a process, empty where the system doesn't have its number.
pub fn state_name(system: &System, process: ProcessId, state: StateId) -> &str
    ensures { result.now ≡ state_name system.now process state }
{
    match system.process(process) {
        Some(process) => name_of_state(process, state),
        None => "",
    }
}

/// The name of a variable of a process, empty where the system doesn't have its number.
pub fn variable_name(system: &System, process: ProcessId, variable: VariableId) -> &str
    ensures { result.now ≡ variable_name system.now process variable }
{
    match system.process(process) {
        Some(process) => name_of_variable(process, variable),
        None => "",
    }
}

fn name_of_state(process: &Process, state: StateId) -> &str
    ensures { result.now ≡ name_of_state process.now state }
{
    match process.states.get(state.0 as usize) {
        Some(state) => state.name.as_str(),
        None => "",
    }
}

fn name_of_variable(process: &Process, variable: VariableId) -> &str
    ensures { result.now ≡ name_of_variable process.now variable }
{
    match process.variables.get(variable.0 as usize) {
        Some(variable) => variable.name.as_str(),
        None => "",
    }
}
