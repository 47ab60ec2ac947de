//! Expressions with their names resolved.

ghost use Rattle.std.specs.Prelude.{◌≡◌, ◌++◌, None, Some, flat_map, map, option_map, if◌then◌else◌, IfOk, OnOk};
ghost use Rattle.build_expressions.specs.Contexts.{allows_word};
ghost use Rattle.build_names.specs.Faults.{Notes, token_word};
ghost use Rattle.build_expressions.specs.Misused.{active_faults, binary_faults, expression_faults, name_faults, timer_faults, unary_faults, word_faults};
ghost use Rattle.build_expressions.specs.Resolved.{argument_of, left_of, typed_of};
ghost use Rattle.build_expressions.specs.Scope.{scope_of, signal_in, value_in};
ghost use Rattle.build_expressions.specs.Typing.{active_typed, activity, argument_in, binary_typed, name_typed, typed_in, unary_typed, word_typed};
ghost use Rattle.build_expressions.specs.Words.{first_word};
ghost use Rattle.sdl_tree.specs.Views.{chain_value, expr_value, name_value};

use crate::arguments::{Argument, any_refused, expressions, place_all};
use crate::context::Context;
use crate::left::Left;
use crate::operand_sort::OperandSort;
use crate::operator::{result_of, unary_result_of};
use crate::scope::{Scope, SignalMeaning, ValueMeaning};
use crate::typed::Typed;
use build_names::{Faults, Token};
use port_model::{SignalId, Value};
use sdl_tree::{
    Chain, Expression, KeywordValue, Link, Mark, Name, Operator, Spelling, UnaryOperator,
};
use std::alloc::{AllocError, Global};

/// An expression with its names resolved. None where a fault was noted in it, or where it names what has no sort.
#[cycle(resolve)]
pub fn resolve_in<'t>(
    alloc: Global,
    context: Context,
    scope: &Scope<'_, '_, 't>,
    expression: &'t Expression,
    faults: &mut Faults<'t>,
) -> Result<Option<Typed>, AllocError>
    ensures typed { IfOk result (λ found. option_map typed_of found
        ≡ typed_in context (scope_of scope.now) (expr_value expression.now)) }
    ensures noted { OnOk result (Notes faults.old faults.new
        (expression_faults context (scope_of scope.now) (expr_value expression.now))) }
{
    match expression {
        Expression::Number(number) => {
            let value = sdl_system::Expression::Value(Value::Int(number.value));
            Ok(Some(Typed::plain(OperandSort::Free, value)))
        }
        Expression::Name(name) => Ok(resolve_name(context, scope, name, faults)),
        Expression::Keyword { value, word } => Ok(resolve_word(context, *value, *word, faults)),
        Expression::Active {
            word,
            timer,
            values,
        } => {
            note_active(context, *word, faults);
            let arguments = resolve_each(alloc, context, scope, values, faults)?;
            resolve_timer(alloc, context, scope, timer, arguments, faults)
        }
        Expression::Parenthesized { inner, .. } => {
            resolve_in(alloc, context, scope, inner, faults)
        }
        Expression::Unary {
            operator,
            word,
            operand,
        } => {
            let operand = resolve_in(alloc, context, scope, operand, faults)?;
            resolve_unary(alloc, *operator, *word, operand, faults)
        }
        Expression::Chain(chain) => resolve_chain(alloc, context, scope, chain, faults),
    }
}

#[cycle(resolve)]
fn resolve_chain<'t>(
    alloc: Global,
    context: Context,
    scope: &Scope<'_, '_, 't>,
    chain: &'t Chain,
    faults: &mut Faults<'t>,
) -> Result<Option<Typed>, AllocError>
    ensures typed { IfOk result (λ found. option_map typed_of found
        ≡ typed_in context (scope_of scope.now) (chain_value chain.now)) }
    ensures noted { OnOk result (Notes faults.old faults.new
        (expression_faults context (scope_of scope.now) (chain_value chain.now))) }
{
    let mut left = begin(
        alloc,
        resolve_in(alloc, context, scope, &chain.first, faults)?,
    );
    for link in &chain.rest {
        left = resolve_link(alloc, context, scope, left, link, faults)?;
    }
    finish(alloc, left)
}

#[cycle(resolve)]
fn resolve_link<'t>(
    alloc: Global,
    context: Context,
    scope: &Scope<'_, '_, 't>,
    left: Option<Left>,
    link: &'t Link,
    faults: &mut Faults<'t>,
) -> Result<Option<Left>, AllocError>
    ensures typed { IfOk result (λ found. option_map left_of found ≡ binary_typed link.now.operator
        (option_map left_of left) (typed_in context (scope_of scope.now) (expr_value link.now.operand))) }
    ensures noted { OnOk result (Notes faults.old faults.new
        (expression_faults context (scope_of scope.now) (expr_value link.now.operand)
        ++ binary_faults link.now.operator link.now.word (option_map left_of left)
        (typed_in context (scope_of scope.now) (expr_value link.now.operand)))) }
{
    let right = resolve_in(alloc, context, scope, &link.operand, faults)?;
    join(link.operator, link.word, left, right, faults)
}

/// Each of the values, with the token with which it begins.
#[cycle(resolve)]
pub fn resolve_each<'t>(
    alloc: Global,
    context: Context,
    scope: &Scope<'_, '_, 't>,
    values: &'t [Expression],
    faults: &mut Faults<'t>,
) -> Result<Vec<Argument<'t>>, AllocError>
    ensures arguments { IfOk result (λ arguments. map argument_of arguments.items
        ≡ map (argument_in context (scope_of scope.now)) (map expr_value values.now)) }
    ensures noted { OnOk result (Notes faults.old faults.new
        (flat_map (expression_faults context (scope_of scope.now)) (map expr_value values.now))) }
{
    let mut arguments = Vec::new(alloc);
    for value in values {
        let typed = resolve_in(alloc, context, scope, value, faults)?;
        arguments.push(Argument {
            token: first_token(value),
            typed,
        })?;
    }
    Ok(arguments)
}

/// The token with which an expression begins.
#[cycle(first)]
pub fn first_token(expression: &Expression) -> Token<'_>
    ensures { token_word result ≡ first_word (expr_value expression.now) }
{
    match expression {
        Expression::Number(number) => Token::of_number(number),
        Expression::Name(name) => Token::of_name(name),
        Expression::Keyword { value, word } => Token::of_mark(value.mark(), *word),
        Expression::Active { word, .. } => Token::of_mark(Mark::Active, *word),
        Expression::Parenthesized { parenthesis, .. } => Token::of_mark(Mark::Open, *parenthesis),
        Expression::Unary { operator, word, .. } => Token::of_mark(operator.mark(), *word),
        Expression::Chain(chain) => first_of_chain(chain),
    }
}

#[cycle(first)]
fn first_of_chain(chain: &Chain) -> Token<'_>
    ensures { token_word result ≡ first_word (chain_value chain.now) }
{
    first_token(&chain.first)
}

fn resolve_name<'t>(
    context: Context,
    scope: &Scope<'_, '_, 't>,
    name: &'t Name,
    faults: &mut Faults<'t>,
) -> Option<Typed>
    ensures typed { option_map typed_of result
        ≡ name_typed context (value_in (scope_of scope.now) (name_value name.now).text) }
    ensures noted { Notes faults.old faults.new
        (name_faults context (name_value name.now) (value_in (scope_of scope.now) (name_value name.now).text)) }
{
    let Some(meaning) = scope.value(&name.text) else {
        faults.note(build_names::Rule::Unknown, Token::of_name(name));
        return None;
    };
    if let ValueMeaning::Variable { .. } = meaning
        && !context.allows_instance()
    {
        faults.note(build_names::Rule::Sort, Token::of_name(name));
    }
    Typed::of_name(context, meaning)
}

fn resolve_word<'t>(
    context: Context,
    value: KeywordValue,
    word: Spelling,
    faults: &mut Faults<'t>,
) -> Option<Typed>
    ensures typed { option_map typed_of result ≡ (if allows_word context value then Some (word_typed value) else None) }
    ensures noted { Notes faults.old faults.new (word_faults context value word) }
{
    if context.allows_word(value) {
        Some(Typed::of_word(value))
    } else {
        faults.note(build_names::Rule::Sort, Token::of_mark(value.mark(), word));
        None
    }
}

fn resolve_unary<'t>(
    alloc: Global,
    operator: UnaryOperator,
    word: Spelling,
    operand: Option<Typed>,
    faults: &mut Faults<'t>,
) -> Result<Option<Typed>, AllocError>
    ensures typed { IfOk result (λ found. option_map typed_of found
        ≡ unary_typed operator (option_map typed_of operand)) }
    ensures noted { OnOk result (Notes faults.old faults.new
        (unary_faults operator word (option_map typed_of operand))) }
{
    let Some(operand) = operand else {
        return Ok(None);
    };
    match unary_result_of(operator, operand.kind) {
        Some(operation) => Ok(Some(operand.with(alloc, operation)?)),
        None => {
            faults.note(
                build_names::Rule::Sort,
                Token::of_mark(operator.mark(), word),
            );
            Ok(None)
        }
    }
}

fn begin(alloc: Global, first: Option<Typed>) -> Option<Left>
    ensures { option_map left_of result ≡ option_map typed_of first }
{
    match first {
        None => None,
        Some(first) => Some(Left::new(alloc, first)),
    }
}

fn join<'t>(
    operator: Operator,
    word: Spelling,
    left: Option<Left>,
    right: Option<Typed>,
    faults: &mut Faults<'t>,
) -> Result<Option<Left>, AllocError>
    ensures typed { IfOk result (λ found. option_map left_of found
        ≡ binary_typed operator (option_map left_of left) (option_map typed_of right)) }
    ensures noted { OnOk result (Notes faults.old faults.new
        (binary_faults operator word (option_map left_of left) (option_map typed_of right))) }
{
    let (Some(left), Some(right)) = (left, right) else {
        return Ok(None);
    };
    match result_of(operator, left.kind, right.kind) {
        Some(operation) => Ok(Some(left.join(operation, right)?)),
        None => {
            faults.note(
                build_names::Rule::Sort,
                Token::of_mark(operator.mark(), word),
            );
            Ok(None)
        }
    }
}

fn finish(alloc: Global, left: Option<Left>) -> Result<Option<Typed>, AllocError>
    ensures { IfOk result (λ found. option_map typed_of found ≡ option_map left_of left) }
{
    match left {
        None => Ok(None),
        Some(left) => Ok(Some(left.finish(alloc)?)),
    }
}

fn note_active<'t>(context: Context, word: Spelling, faults: &mut Faults<'t>)
    ensures { Notes faults.old faults.new (active_faults context word) }
{
    if !context.allows_instance() {
        faults.note(build_names::Rule::Sort, Token::of_mark(Mark::Active, word));
    }
}

fn resolve_timer<'t>(
    alloc: Global,
    context: Context,
    scope: &Scope<'_, '_, 't>,
    timer: &'t Name,
    arguments: Vec<Argument<'t>>,
    faults: &mut Faults<'t>,
) -> Result<Option<Typed>, AllocError>
    ensures typed { IfOk result (λ found. option_map typed_of found ≡ active_typed context
        (signal_in (scope_of scope.now) (name_value timer.now).text) (map argument_of arguments.entry.items)) }
    ensures noted { OnOk result (Notes faults.old faults.new
        (timer_faults (name_value timer.now) (signal_in (scope_of scope.now) (name_value timer.now).text)
        (map argument_of arguments.entry.items))) }
{
    let Some(SignalMeaning::Timer { number, sorts, .. }) = scope.signal(&timer.text) else {
        faults.note(build_names::Rule::Unknown, Token::of_name(timer));
        return Ok(None);
    };
    let are_taken = place_all(timer, sorts, &arguments, faults);
    if are_taken && context.allows_instance() {
        Ok(Some(activity(alloc, number, arguments)?))
    } else {
        Ok(None)
    }
}

/// Whether the timer is active with these values.
fn activity(
    alloc: Global,
    timer: SignalId,
    arguments: Vec<Argument<'_>>,
) -> Result<Typed, AllocError>
    ensures { IfOk result (λ typed. typed_of typed ≡ activity timer (map argument_of arguments.entry.items)) }
{
    let is_refused = any_refused(&arguments);
    let expression = match expressions(alloc, arguments)? {
        None => None,
        Some(values) => Some(sdl_system::Expression::Active { timer, values }),
    };
    Ok(Typed {
        kind: OperandSort::Boolean,
        expression,
        is_refused,
    })
}
