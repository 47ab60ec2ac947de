//! Variables and formal parameters of processes (Z.101: process; Z.102: variable).

ghost use Rattle.std.specs.Prelude.{◌≡◌, IfErr, IfOk, map, slice_get, take};
ghost use Rattle.std.specs.Option.{option_map};
ghost use Rattle.run_semantics.specs.Fails.{parameters_of};

use run_record::Failure;
use sdl_system::{Process, ProcessId, Sort, System, VariableId};
use std::alloc::{AllocError, Global};

/// The sort of a variable. None where the process has no such variable.
pub fn sort_of(process: &Process, variable: VariableId) -> Option<Sort>
    ensures { result ≡ option_map (λ one. one.sort) (slice_get process.now.variables.items variable.0) }
{
    match process.variables.get(variable.0 as usize) {
        Some(variable) => Some(variable.sort),
        None => None,
    }
}

/// The sorts of the parameters of a process. Refused for lack of memory alone.
pub fn parameters_of(
    alloc: Global,
    system: &System,
    process: ProcessId,
) -> Result<Vec<Sort>, Failure>
    ensures ok { IfOk result (λ sorts. sorts.items ≡ parameters_of system.now process) }
    ensures err { IfErr result (λ why. why ≡ Failure.Memory) }
{
    let Some(process) = system.process(process) else {
        return Ok(Vec::new(alloc));
    };
    match sorts_in(alloc, process) {
        Ok(sorts) => Ok(sorts),
        Err(_) => Err(Failure::Memory),
    }
}

fn sorts_in(alloc: Global, process: &Process) -> Result<Vec<Sort>, AllocError>
    ensures { let first = take process.now.parameters process.now.variables.items in
        IfOk result (λ sorts. sorts.items ≡ map (λ one. one.sort) first) }
{
    let parameters = process.variables.iter().take(process.parameters as usize);
    parameters.map(|variable| variable.sort).collect(alloc)
}
