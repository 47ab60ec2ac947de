//! What the heading of a process says, and its variables.

ghost use Rattle.std.specs.Prelude.{◌≡◌, ◌++◌, map, IfOk, OnOk};
ghost use Rattle.sdl_build.specs.Headings.{value_in, variable_in, variable_sort, variables_in};
ghost use Rattle.build_definitions.specs.Seen.{value_seen};
ghost use Rattle.build_names.specs.Spaces.{is_same_scope};
ghost use Rattle.build_names.specs.declared.scopes.scope.ScopeId.TheVariants as scopes;
ghost use Rattle.sdl_system.specs.Behaviour.{variable_meaning};

use build_definitions::ValueName;
use build_expressions::{Constant, ValueEntry};
use build_names::ScopeId;
use port_model::Value;
use sdl_system::{ProcessId, Sort, Variable};
use std::alloc::{AllocError, Global};

/// The variables of a process with the values that they begin with, formal parameters first. One whose sort is none's
/// is left out.
pub fn variables_of(
    alloc: Global,
    process: ProcessId,
    values: &[ValueName<'_>],
    initials: &[Option<Constant>],
) -> Result<Vec<Variable>, AllocError>
    ensures { IfOk result (λ variables. map variable_meaning variables.items
        ≡ variables_in process (map value_seen values.now) initials.now) }
{
    let mut variables = Vec::new(alloc);
    for (entry, initial) in values.iter().zip(initials) {
        add_variable(alloc, &mut variables, process, entry, *initial)?;
    }
    Ok(variables)
}

fn add_variable(
    alloc: Global,
    variables: &mut Vec<Variable>,
    process: ProcessId,
    entry: &ValueName<'_>,
    initial: Option<Constant>,
) -> Result<(), AllocError>
    ensures { OnOk result (map variable_meaning variables.new.items
        ≡ map variable_meaning variables.old.items ++ variable_in process (value_seen entry.now) initial) }
{
    if !is_of(entry.scope, process) {
        return Ok(());
    }
    let Some(sort) = variable_sort(entry.entry) else {
        return Ok(());
    };
    variables.push(Variable {
        name: String::from_str(alloc, entry.name.text.as_str())?,
        sort,
        initial: value_in(initial),
    })?;
    Ok(())
}

/// Whether it is the scope of the process.
fn is_of(scope: ScopeId, process: ProcessId) -> bool
    ensures { result ≡ is_same_scope scope (scopes.Process process) }
{
    match scope {
        ScopeId::System => false,
        ScopeId::Block(_) => false,
        ScopeId::Process(own) => own.0 == process.0,
    }
}

fn variable_sort(entry: ValueEntry) -> Option<Sort>
    ensures { result ≡ variable_sort entry }
{
    match entry {
        ValueEntry::Variable { sort, .. } => sort,
        ValueEntry::Synonym { .. } => None,
    }
}

fn value_in(initial: Option<Constant>) -> Option<Value>
    ensures { result ≡ value_in initial }
{
    match initial {
        Some(Constant::Value(value)) => Some(value),
        Some(Constant::NoValue) => None,
        Some(Constant::Refused) => None,
        None => None,
    }
}
