//! Constant expressions.

ghost use Rattle.std.specs.Prelude.{◌≡◌, option_and_then, option_map, IfOk, OnOk};
ghost use Rattle.build_names.specs.Faults.{Notes, fault_if, token_word};
ghost use Rattle.build_names.specs.declared.faults.fault.Rule.TheVariants.{BadCount};
ghost use Rattle.build_expressions.specs.Constants.{binary_value, constant_faults, constant_in, counted, counted_faults, given, is_miscounted, unary_value, value_of, with_value};
ghost use Rattle.build_expressions.specs.Resolved.{typed_of};
ghost use Rattle.build_expressions.specs.Scope.{scope_of};
ghost use Rattle.sdl_system.specs.Term.{operand_of, term_of, term_of_chain};
ghost use Rattle.sdl_tree.specs.Views.{expr_value};

use crate::arguments::taken;
use crate::context::Context;
use crate::scope::{Constant, Scope};
use crate::typed::Typed;
use crate::typing::{first_token, resolve_in};
use build_names::{Faults, Rule, Token};
use port_model::Value;
use sdl_system::{Chain, Failure, Link, Operation, Sort, UnaryOperation, in_sort};
use sdl_tree::Expression;
use std::alloc::{AllocError, Global};

/// Finds the constant of an expression at a place of a sort. It has numbers, literals, synonyms and operators. If the
/// place's sort is unknown, each kind fits and the value stays what it is.
///
/// Noted are the faults of the expression, where a variable, a formal parameter, `now`, `active` and the Pids of an
/// instance are `Sort` at that word; `Sort` at its first token where it doesn't fit the place; and `BadCount` there
/// where it has no value, or a negative one for a Natural. Where a synonym in it is refused, it is refused too, and its
/// value isn't asked for. A negative value for a Natural is answered as it stands.
pub fn constant<'t>(
    alloc: Global,
    scope: &Scope<'_, '_, 't>,
    expression: &'t Expression,
    sort: Option<Sort>,
    faults: &mut Faults<'t>,
) -> Result<Constant, AllocError>
    ensures constant { IfOk result (λ constant. constant
        ≡ constant_in (scope_of scope.now) sort (expr_value expression.now)) }
    ensures noted { OnOk result (Notes faults.old faults.new
        (constant_faults (scope_of scope.now) sort (expr_value expression.now))) }
{
    let typed = resolve_in(alloc, Context::Constant, scope, expression, faults)?;
    let token = first_token(expression);
    let taken = taken(sort, token, typed, faults);
    Ok(counted(sort, token, &taken, faults))
}

/// Finds the constant of an expression that fits its place. It is refused if none fits, or if that one is.
pub fn counted<'t>(
    sort: Option<Sort>,
    token: Token<'t>,
    taken: &Option<Typed>,
    faults: &mut Faults<'t>,
) -> Constant
    ensures constant { result ≡ counted sort (option_map typed_of taken.now) }
    ensures noted { Notes faults.old faults.new
        (counted_faults sort (token_word token.entry) (option_map typed_of taken.now)) }
{
    match taken {
        Some(typed) if !typed.is_refused => {
            valued(sort, token, value_in(&typed.expression), faults)
        }
        _ => Constant::Refused,
    }
}

fn valued<'t>(
    sort: Option<Sort>,
    token: Token<'t>,
    value: Option<Value>,
    faults: &mut Faults<'t>,
) -> Constant
    ensures constant { result ≡ with_value sort value }
    ensures noted { Notes faults.old faults.new
        (fault_if (is_miscounted sort value) BadCount (token_word token.entry)) }
{
    let Some(value) = value else {
        faults.note(Rule::BadCount, token);
        return Constant::NoValue;
    };
    let Some(sort) = sort else {
        return Constant::Value(value);
    };
    match in_sort(value, sort) {
        Some(placed) => Constant::Value(placed),
        None => {
            faults.note(Rule::BadCount, token);
            Constant::Value(value)
        }
    }
}

fn value_in(expression: &Option<sdl_system::Expression>) -> Option<Value>
    ensures { result ≡ option_and_then value_of (option_map term_of expression.now) }
{
    match expression {
        None => None,
        Some(expression) => value_of(expression),
    }
}

/// The value of an expression, where each operation in it gives one and it asks nothing of an instance.
#[cycle(value_of)]
fn value_of(expression: &sdl_system::Expression) -> Option<Value>
    ensures { result ≡ value_of (term_of expression.now) }
{
    match expression {
        sdl_system::Expression::Value(value) => Some(*value),
        sdl_system::Expression::Variable(_)
        | sdl_system::Expression::Now
        | sdl_system::Expression::Pid(_)
        | sdl_system::Expression::Active { .. } => None,
        sdl_system::Expression::Unary { operation, operand } => {
            unary_value(*operation, value_of(operand))
        }
        sdl_system::Expression::Chain(chain) => chain_value(chain),
    }
}

#[cycle(value_of)]
fn chain_value(chain: &Chain) -> Option<Value>
    ensures { result ≡ value_of (term_of_chain chain.now) }
{
    let mut value = value_of(&chain.first);
    for link in &chain.rest {
        value = link_value(value, link);
    }
    value
}

#[cycle(value_of)]
fn link_value(left: Option<Value>, link: &Link) -> Option<Value>
    ensures { result ≡ binary_value (operand_of link.now).operation left (value_of (operand_of link.now).term) }
{
    binary_value(link.operation, left, value_of(&link.operand))
}

fn unary_value(operation: UnaryOperation, operand: Option<Value>) -> Option<Value>
    ensures { result ≡ unary_value operation operand }
{
    given(operation.apply(operand?))
}

fn binary_value(operation: Operation, left: Option<Value>, right: Option<Value>) -> Option<Value>
    ensures { result ≡ binary_value operation left right }
{
    match (left, right) {
        (Some(left), Some(right)) => given(operation.apply(left, right)),
        _ => None,
    }
}

/// The value, where there is one.
fn given(value: Result<Value, Failure>) -> Option<Value>
    ensures { result ≡ given value }
{
    match value {
        Ok(value) => Some(value),
        Err(_) => None,
    }
}
