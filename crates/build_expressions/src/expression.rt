//! Expressions at places of the text that want a sort.

ghost use Rattle.std.specs.Prelude.{◌≡◌, Some, map, option_map, IfOk, OnOk};
ghost use Rattle.build_names.specs.Faults.{Notes};
ghost use Rattle.build_expressions.specs.Misused.{expression_faults, list_faults, place_faults};
ghost use Rattle.build_expressions.specs.Resolved.{typed_of};
ghost use Rattle.build_expressions.specs.Scope.{scope_of};
ghost use Rattle.build_expressions.specs.Typing.{argument_in, taken_term, taken_terms, typed_in};
ghost use Rattle.build_expressions.specs.declared.context.Context.TheVariants.{Condition, Transition};
ghost use Rattle.sdl_system.specs.Term.{term_of};
ghost use Rattle.sdl_system.specs.declared.sort.Sort.TheVariants.{Boolean};
ghost use Rattle.sdl_tree.specs.Views.{expr_value, name_value};

use crate::arguments::{expression, expressions, place_all, taken};
use crate::context::Context;
use crate::scope::Scope;
use crate::typed::Typed;
use crate::typing::{first_token, resolve_each, resolve_in};
use build_names::Faults;
use sdl_system::Sort;
use sdl_tree::{Expression, Name};
use std::alloc::{AllocError, Global};

/// An expression of a transition, with its kind. None where a rule is broken in it, which is noted, or where it names a
/// variable or a synonym whose sort is unknown.
///
/// Noted are, in the order of the text: `Unknown` at a name that stands for nothing, and at one behind `active` that is
/// no timer's; `Sort` at an operator that is none for the kinds of its operands, at the name of a timer with another
/// number of values, and at the first token of a value that doesn't fit the timer's.
pub fn resolve<'t>(
    alloc: Global,
    scope: &Scope<'_, '_, 't>,
    expression: &'t Expression,
    faults: &mut Faults<'t>,
) -> Result<Option<Typed>, AllocError>
    ensures typed { IfOk result (λ found. option_map typed_of found
        ≡ typed_in Transition (scope_of scope.now) (expr_value expression.now)) }
    ensures noted { OnOk result (Notes faults.old faults.new
        (expression_faults Transition (scope_of scope.now) (expr_value expression.now))) }
{
    resolve_in(alloc, Context::Transition, scope, expression, faults)
}

/// An expression of a transition at a place of a sort. None where a rule is broken in it, where a synonym in it has no
/// value, or where it doesn't fit the place, which is noted as `Sort` at its first token. Where the place's sort is
/// unknown, each kind fits.
pub fn resolve_for<'t>(
    alloc: Global,
    scope: &Scope<'_, '_, 't>,
    expression: &'t Expression,
    sort: Option<Sort>,
    faults: &mut Faults<'t>,
) -> Result<Option<sdl_system::Expression>, AllocError>
    ensures term { IfOk result (λ found. option_map term_of found
        ≡ taken_term sort (typed_in Transition (scope_of scope.now) (expr_value expression.now))) }
    ensures noted { OnOk result (Notes faults.old faults.new
        (place_faults Transition (scope_of scope.now) sort (expr_value expression.now))) }
{
    resolve_at(alloc, Context::Transition, scope, expression, sort, faults)
}

/// The condition behind `provided`: a Boolean expression without `now`, at which `Sort` is noted.
pub fn resolve_condition<'t>(
    alloc: Global,
    scope: &Scope<'_, '_, 't>,
    expression: &'t Expression,
    faults: &mut Faults<'t>,
) -> Result<Option<sdl_system::Expression>, AllocError>
    ensures term { IfOk result (λ found. option_map term_of found
        ≡ taken_term (Some Boolean) (typed_in Condition (scope_of scope.now) (expr_value expression.now))) }
    ensures noted { OnOk result (Notes faults.old faults.new
        (place_faults Condition (scope_of scope.now) (Some Boolean) (expr_value expression.now))) }
{
    let boolean = Some(Sort::Boolean);
    resolve_at(
        alloc,
        Context::Condition,
        scope,
        expression,
        boolean,
        faults,
    )
}

fn resolve_at<'t>(
    alloc: Global,
    context: Context,
    scope: &Scope<'_, '_, 't>,
    written: &'t Expression,
    sort: Option<Sort>,
    faults: &mut Faults<'t>,
) -> Result<Option<sdl_system::Expression>, AllocError>
    ensures term { IfOk result (λ found. option_map term_of found
        ≡ taken_term sort (typed_in context (scope_of scope.now) (expr_value written.now))) }
    ensures noted { OnOk result (Notes faults.old faults.new
        (place_faults context (scope_of scope.now) sort (expr_value written.now))) }
{
    let typed = resolve_in(alloc, context, scope, written, faults)?;
    let taken = taken(sort, first_token(written), typed, faults);
    Ok(expression(taken))
}

/// The values in parentheses behind a name, for places of these sorts: the parameters of a signal, of a timer or of a
/// process. Noted are the faults of each value; then `Sort` at the name where the values are fewer or more than the
/// places, and else at the first token of each value that doesn't fit its place. None where something is noted, where a
/// value has no kind, or where a synonym in one has no value.
pub fn resolve_values<'t>(
    alloc: Global,
    scope: &Scope<'_, '_, 't>,
    name: &'t Name,
    values: &'t [Expression],
    sorts: &[Option<Sort>],
    faults: &mut Faults<'t>,
) -> Result<Option<Vec<sdl_system::Expression>>, AllocError>
    ensures terms { IfOk result (λ found. option_map (λ list. map term_of list.items) found
        ≡ taken_terms sorts.now (map (argument_in Transition (scope_of scope.now)) (map expr_value values.now))) }
    ensures noted { OnOk result (Notes faults.old faults.new
        (list_faults Transition (scope_of scope.now) (name_value name.now) sorts.now (map expr_value values.now))) }
{
    let arguments = resolve_each(alloc, Context::Transition, scope, values, faults)?;
    if place_all(name, sorts, &arguments, faults) {
        expressions(alloc, arguments)
    } else {
        Ok(None)
    }
}
