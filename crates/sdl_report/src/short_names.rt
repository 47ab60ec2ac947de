//! The names of a system that are copied with a fixed length. They are made once a report.

ghost use Rattle.std.specs.Prelude.{◌≡◌, map, option_copied, IfOk, IfSome};
ghost use Rattle.sdl_report.specs.Name.{signal_name, state_name, variable_name};
ghost use Rattle.sdl_report.specs.ShortName.{process_names, short_of_signal, short_of_state, short_of_variable, signal_short, state_short, variable_short};

use crate::short_name::ShortName;
use port_model::SignalId;
use sdl_system::{Process, ProcessId, Signal, State, StateId, System, Variable, VariableId};
use std::alloc::{AllocError, Global};
use std::marker::Model;

/// A system, with those of its names that are short. Callers see the system.
#[derive(Drop)]
pub struct ShortNames<'a> {
    system: &'a System,
    signals: Vec<Option<ShortName>>,
    processes: Vec<ProcessNames>,
}

impl<'a> Model for ShortNames<'a> {
    ghost use Rattle.sdl_system.specs.System.{SystemValue};
    ghost use Rattle.sdl_system.specs.contracts.system.System.{the_row as system_row};

    ghost Value = { SystemValue };

    ghost coded = { system_row.coded };

    ghost view = { λ names. names.system.now };

    ghost use Rattle.sdl_report.specs.ShortName.{AreShortNames};

    ghost invariant = { λ names. AreShortNames names.system.now names.signals.items names.processes.items };
}

/// The short names of the states and of the variables of a process.
#[derive(Drop)]
struct ProcessNames {
    states: Vec<Option<ShortName>>,
    variables: Vec<Option<ShortName>>,
}

impl Model for ProcessNames {
    ghost use Rattle.sdl_report.specs.ShortName.{ProcessNamesValue};

    ghost Value = { ProcessNamesValue };

    ghost view = { λ names. record { states = names.states.items; variables = names.variables.items } };
}

impl<'a> ShortNames<'a> {
    /// The system, with its short names made.
    pub fn of(alloc: Global, system: &'a System) -> Result<ShortNames<'a>, AllocError>
        ensures { IfOk result (λ names. names ≡ system.now) }
    {
        Ok(ShortNames {
            system,
            signals: signal_names(alloc, system.signals())?,
            processes: all_process_names(alloc, system.processes())?,
        })
    }

    pub fn system(&self) -> &'a System
        ensures { result.now ≡ self.now }
    {
        self.system
    }

    /// The name of a signal or a timer, if the system has its number and it is short.
    #[inline(always)]
    pub fn signal(&self, signal: SignalId) -> Option<&ShortName>
        ensures is { option_copied result ≡ short_of_signal self.now signal }
        ensures own { IfSome result (λ name. name.now ≡ signal_name self.now signal) }
    {
        self.signals.get(signal.0 as usize)?.as_ref()
    }

    /// The name of a state of a process, if the system has its number and it is short.
    #[inline(always)]
    pub fn state(&self, process: ProcessId, state: StateId) -> Option<&ShortName>
        ensures is { option_copied result ≡ short_of_state self.now process state }
        ensures own { IfSome result (λ name. name.now ≡ state_name self.now process state) }
    {
        self.processes
            .get(process.0 as usize)?
            .states
            .get(state.0 as usize)?
            .as_ref()
    }

    /// The name of a variable of a process, if the system has its number and it is short.
    #[inline(always)]
    pub fn variable(&self, process: ProcessId, variable: VariableId) -> Option<&ShortName>
        ensures is { option_copied result ≡ short_of_variable self.now process variable }
        ensures own { IfSome result (λ name. name.now ≡ variable_name self.now process variable) }
    {
        self.processes
            .get(process.0 as usize)?
            .variables
            .get(variable.0 as usize)?
            .as_ref()
    }
}

fn all_process_names(alloc: Global, processes: &[Process]) -> Result<Vec<ProcessNames>, AllocError>
    ensures { IfOk result (λ names. names.items ≡ map process_names processes.now) }
{
    let mut names = Vec::new(alloc);
    for process in processes {
        names.push(ProcessNames {
            states: state_names(alloc, &process.states)?,
            variables: variable_names(alloc, &process.variables)?,
        })?;
    }
    Ok(names)
}

fn signal_names(alloc: Global, signals: &[Signal]) -> Result<Vec<Option<ShortName>>, AllocError>
    ensures { IfOk result (λ names. names.items ≡ map signal_short signals.now) }
{
    let mut names = Vec::new(alloc);
    for signal in signals {
        names.push(ShortName::of(signal.name.as_str()))?;
    }
    Ok(names)
}

fn state_names(alloc: Global, states: &[State]) -> Result<Vec<Option<ShortName>>, AllocError>
    ensures { IfOk result (λ names. names.items ≡ map state_short states.now) }
{
    let mut names = Vec::new(alloc);
    for state in states {
        names.push(ShortName::of(state.name.as_str()))?;
    }
    Ok(names)
}

fn variable_names(
    alloc: Global,
    variables: &[Variable],
) -> Result<Vec<Option<ShortName>>, AllocError>
    ensures { IfOk result (λ names. names.items ≡ map variable_short variables.now) }
{
    let mut names = Vec::new(alloc);
    for variable in variables {
        names.push(ShortName::of(variable.name.as_str()))?;
    }
    Ok(names)
}
