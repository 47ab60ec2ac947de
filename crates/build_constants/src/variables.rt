//! What variables begin with.

ghost use Rattle.std.specs.Prelude.{◌≡◌, option_map, IfOk, OnOk};
ghost use Rattle.build_constants.specs.Variables.{initial_faults, initial_in};
ghost use Rattle.build_names.specs.Faults.{Notes};
ghost use Rattle.build_expressions.specs.Scope.{scope_of};
ghost use Rattle.sdl_tree.specs.Views.{expr_value};

use build_expressions::{Constant, Scope, constant};
use build_names::Faults;
use sdl_system::Sort;
use sdl_tree::Expression;
use std::alloc::{AllocError, Global};

/// Reads an initial value at a place of this sort as a constant. None if none stands. A negative one for a Natural is
/// answered as it stands.
///
/// Noted are its faults as a constant of that sort: so `Sort` at its first token where it doesn't fit, and `BadCount`
/// there where it has no value or is a negative one for a Natural.
pub fn initial_value<'t>(
    alloc: Global,
    scope: &Scope<'_, '_, 't>,
    sort: Option<Sort>,
    initial: Option<&'t Expression>,
    faults: &mut Faults<'t>,
) -> Result<Option<Constant>, AllocError>
    ensures value { IfOk result (λ value. value
        ≡ initial_in (scope_of scope.now) sort (option_map (λ e. expr_value e.now) initial.entry)) }
    ensures noted { OnOk result (Notes faults.old faults.new
        (initial_faults (scope_of scope.now) sort (option_map (λ e. expr_value e.now) initial.entry))) }
{
    match initial {
        None => Ok(None),
        Some(expression) => {
            let constant = constant(alloc, scope, expression, sort, faults)?;
            Ok(Some(constant))
        }
    }
}
