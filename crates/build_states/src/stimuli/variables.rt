//! The variables that take the values of an input.

ghost use Rattle.std.specs.Prelude.{◌≡◌, IfOk, OnOk, map, option_map};
ghost use Rattle.build_names.specs.Faults.{Notes};
ghost use Rattle.build_expressions.specs.Scope.{scope_of};
ghost use Rattle.build_states.specs.Faulty.{is_unfit, variable_faults, variables_faults};
ghost use Rattle.build_states.specs.Mentions.{variable_in, variables_in};
ghost use Rattle.build_states.specs.Places.{sort_at};
ghost use Rattle.sdl_tree.specs.Views.{name_value};

use build_expressions::{Scope, ValueMeaning};
use build_names::{Faults, Rule, Token};
use sdl_system::{Sort, VariableId};
use sdl_tree::Name;
use std::alloc::{AllocError, Global};

/// The variables and formal parameters at the places of an input, each for the parameter at its place. Noted are
/// `Unknown` at a name that is no variable's, and `Sort` at one whose sort doesn't fit its parameter.
pub fn read_variables<'t>(
    alloc: Global,
    scope: &Scope<'_, '_, 't>,
    parameters: &[Option<Sort>],
    variables: &'t [Option<Name>],
    faults: &mut Faults<'t>,
) -> Result<Vec<Option<VariableId>>, AllocError>
    ensures read { IfOk result (λ list. list.items
        ≡ variables_in (scope_of scope.now) (map (option_map name_value) variables.now)) }
    ensures noted { OnOk result (Notes faults.old faults.new
        (variables_faults (scope_of scope.now) parameters.now (map (option_map name_value) variables.now))) }
{
    let mut read = Vec::new(alloc);
    for (index, variable) in variables.iter().enumerate() {
        let parameter = sort_at(parameters, index);
        read.push(read_variable(scope, parameter, variable, faults))?;
    }
    Ok(read)
}

/// The sort of the parameter at a place; none is known past the last.
fn sort_at(parameters: &[Option<Sort>], place: usize) -> Option<Sort>
    ensures { result ≡ sort_at parameters.now place }
{
    match parameters.get(place) {
        None => None,
        Some(sort) => *sort,
    }
}

fn read_variable<'t>(
    scope: &Scope<'_, '_, 't>,
    parameter: Option<Sort>,
    variable: &'t Option<Name>,
    faults: &mut Faults<'t>,
) -> Option<VariableId>
    ensures read { result ≡ variable_in (scope_of scope.now) (option_map name_value variable.now) }
    ensures noted { Notes faults.old faults.new
        (variable_faults (scope_of scope.now) parameter (option_map name_value variable.now)) }
{
    let name = variable.as_ref()?;
    match scope.value(&name.text) {
        Some(ValueMeaning::Variable { number, sort }) => {
            if is_unfit(parameter, sort) {
                faults.note(Rule::Sort, Token::of_name(name));
            }
            Some(number)
        }
        _ => {
            faults.note(Rule::Unknown, Token::of_name(name));
            None
        }
    }
}

/// Whether the sort of a parameter doesn't fit that of the variable which takes its values.
fn is_unfit(parameter: Option<Sort>, variable: Option<Sort>) -> bool
    ensures { result ≡ is_unfit parameter variable }
{
    match (parameter, variable) {
        (Some(parameter), Some(variable)) => !build_expressions::OperandSort::of_sort(
            parameter,
        ).fits(variable),
        _ => false,
    }
}
