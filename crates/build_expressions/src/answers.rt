//! The answers of a decision.

ghost use Rattle.std.specs.Prelude.{◌≡◌, None, option_map, IfOk, OnOk};
ghost use Rattle.build_names.specs.Faults.{Notes, fault_if, token_word};
ghost use Rattle.build_expressions.specs.Answers.{answer_faults, answer_in, answer_value, answer_value_faults, comparable_in, compared_faults, comparison_for, has_order, is_incomparable, known, order_for};
ghost use Rattle.build_expressions.specs.Constants.{counted};
ghost use Rattle.build_names.specs.declared.faults.fault.Rule.TheVariants.{Sort};
ghost use Rattle.build_expressions.specs.Resolved.{typed_of};
ghost use Rattle.build_expressions.specs.Scope.{scope_of};
ghost use Rattle.sdl_tree.specs.Views.{answer_value as answer_tree, expr_value};

use crate::constants::counted;
use crate::context::Context;
use crate::operand_sort::OperandSort;
use crate::operator::result_of;
use crate::scope::{Constant, Scope};
use crate::typed::Typed;
use crate::typing::{first_token, resolve_in};
use build_names::{Faults, Token};
use port_model::Value;
use sdl_system::Comparison;
use sdl_tree::{Answer, Expression, Operator};
use std::alloc::{AllocError, Global};

/// An answer of a decision whose question is of this kind; where the kind is unknown, each value can be compared with
/// it. None where something is noted, or a synonym in it is refused.
///
/// Noted are the faults of its values, which are constant expressions; `Sort` at the first token of a value that can't
/// be compared with the question's by `=`, at an order operator where the question's values have no order, and there at
/// the first token of a range; and `BadCount` at the first token of a value that there isn't.
pub fn resolve_answer<'t>(
    alloc: Global,
    scope: &Scope<'_, '_, 't>,
    question: Option<OperandSort>,
    answer: &'t Answer,
    faults: &mut Faults<'t>,
) -> Result<Option<sdl_system::Answer>, AllocError>
    ensures answer { IfOk result (λ found. found ≡ answer_in (scope_of scope.now) question (answer_tree answer.now)) }
    ensures noted { OnOk result (Notes faults.old faults.new
        (answer_faults (scope_of scope.now) question (answer_tree answer.now))) }
{
    match answer {
        Answer::Value(value) => {
            let value = resolve_value(alloc, scope, question, value, faults)?;
            Ok(value.map(sdl_system::Answer::Value))
        }
        Answer::Range { first, last } => {
            let has_order = has_order(question);
            if !has_order {
                faults.note(build_names::Rule::Sort, first_token(first));
            }
            let first = resolve_value(alloc, scope, question, first, faults)?;
            let last = resolve_value(alloc, scope, question, last, faults)?;
            match (has_order, first, last) {
                (true, Some(first), Some(last)) => {
                    Ok(Some(sdl_system::Answer::Range { first, last }))
                }
                _ => Ok(None),
            }
        }
        Answer::Compared {
            operator,
            word,
            value,
        } => {
            let comparison = comparison_for(question, *operator);
            if comparison.is_none() {
                faults.note(
                    build_names::Rule::Sort,
                    Token::of_mark(operator.mark(), *word),
                );
            }
            let value = resolve_value(alloc, scope, question, value, faults)?;
            match (comparison, value) {
                (Some(comparison), Some(value)) => {
                    Ok(Some(sdl_system::Answer::Compared { comparison, value }))
                }
                _ => Ok(None),
            }
        }
    }
}

/// The value of an answer, where it has one that can be compared with the question's.
fn resolve_value<'t>(
    alloc: Global,
    scope: &Scope<'_, '_, 't>,
    question: Option<OperandSort>,
    value: &'t Expression,
    faults: &mut Faults<'t>,
) -> Result<Option<Value>, AllocError>
    ensures value { IfOk result (λ found. found ≡ answer_value (scope_of scope.now) question (expr_value value.now)) }
    ensures noted { OnOk result (Notes faults.old faults.new
        (answer_value_faults (scope_of scope.now) question (expr_value value.now))) }
{
    let typed = resolve_in(alloc, Context::Constant, scope, value, faults)?;
    Ok(compared(question, first_token(value), typed, faults))
}

fn compared<'t>(
    question: Option<OperandSort>,
    token: Token<'t>,
    typed: Option<Typed>,
    faults: &mut Faults<'t>,
) -> Option<Value>
    ensures value { result ≡ known (counted None (comparable_in question (option_map typed_of typed))) }
    ensures noted { Notes faults.old faults.new
        (compared_faults question (token_word token.entry) (option_map typed_of typed)) }
{
    let comparable = comparable(question, token, typed, faults);
    known(counted(None, token, &comparable, faults))
}

/// The value where it can be compared with the question's. One that can't be is noted.
fn comparable<'t>(
    question: Option<OperandSort>,
    token: Token<'t>,
    typed: Option<Typed>,
    faults: &mut Faults<'t>,
) -> Option<Typed>
    ensures comparable { option_map typed_of result ≡ comparable_in question (option_map typed_of typed) }
    ensures noted { Notes faults.old faults.new
        (fault_if (is_incomparable question (option_map typed_of typed)) Sort (token_word token.entry)) }
{
    let typed = typed?;
    let is_comparable = match question {
        None => true,
        Some(asked) => result_of(Operator::Equal, asked, typed.kind).is_some(),
    };
    if is_comparable {
        Some(typed)
    } else {
        faults.note(build_names::Rule::Sort, token);
        None
    }
}

fn known(constant: Constant) -> Option<Value>
    ensures { result ≡ known constant }
{
    match constant {
        Constant::Value(value) => Some(value),
        Constant::NoValue | Constant::Refused => None,
    }
}

/// Whether the values of the question have an order.
fn has_order(question: Option<OperandSort>) -> bool
    ensures { result ≡ has_order question }
{
    match question {
        Some(OperandSort::Boolean | OperandSort::Pid) => false,
        None
        | Some(
            OperandSort::Free | OperandSort::Integer | OperandSort::Time | OperandSort::Duration,
        ) => true,
    }
}

/// The comparison that an operator is before an answer of the question.
fn comparison_for(question: Option<OperandSort>, operator: Operator) -> Option<Comparison>
    ensures { result ≡ comparison_for question operator }
{
    match operator {
        Operator::Equal => Some(Comparison::Equal),
        Operator::NotEqual => Some(Comparison::NotEqual),
        Operator::Less => order_for(question, Comparison::Less),
        Operator::LessOrEqual => order_for(question, Comparison::LessOrEqual),
        Operator::Greater => order_for(question, Comparison::Greater),
        Operator::GreaterOrEqual => order_for(question, Comparison::GreaterOrEqual),
        _ => None,
    }
}

fn order_for(question: Option<OperandSort>, comparison: Comparison) -> Option<Comparison>
    ensures { result ≡ order_for question comparison }
{
    if has_order(question) {
        Some(comparison)
    } else {
        None
    }
}
