//! The default durations of timers.

ghost use Rattle.std.specs.Prelude.{◌≡◌, option_map, IfOk, OnOk};
ghost use Rattle.build_constants.specs.Timers.{duration_faults, duration_in, ticks_of};
ghost use Rattle.build_names.specs.Faults.{Notes};
ghost use Rattle.build_expressions.specs.Scope.{scope_of};
ghost use Rattle.sdl_tree.specs.Views.{expr_value};

use build_expressions::{Constant, Scope, constant};
use build_names::Faults;
use sdl_system::{Sort, number_of};
use sdl_tree::Expression;
use std::alloc::{AllocError, Global};

/// For how many ticks a timer is set where no time is told. It may be negative: such a timer is due at once. None where
/// no default duration stands, and where a rule is broken in it.
///
/// Noted are its faults as a constant of sort Duration.
pub fn default_duration<'t>(
    alloc: Global,
    scope: &Scope<'_, '_, 't>,
    duration: Option<&'t Expression>,
    faults: &mut Faults<'t>,
) -> Result<Option<i64>, AllocError>
    ensures duration { IfOk result (λ ticks. ticks
        ≡ duration_in (scope_of scope.now) (option_map (λ e. expr_value e.now) duration.entry)) }
    ensures noted { OnOk result (Notes faults.old faults.new
        (duration_faults (scope_of scope.now) (option_map (λ e. expr_value e.now) duration.entry))) }
{
    match duration {
        None => Ok(None),
        Some(expression) => {
            let constant = constant(alloc, scope, expression, Some(Sort::Duration), faults)?;
            Ok(ticks_of(constant))
        }
    }
}

/// The number of a constant that has a value.
fn ticks_of(constant: Constant) -> Option<i64>
    ensures { result ≡ ticks_of constant }
{
    match constant {
        Constant::Value(value) => Some(number_of(value)),
        Constant::NoValue | Constant::Refused => None,
    }
}
