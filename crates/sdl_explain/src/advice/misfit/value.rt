//! Advice on a value for something of another sort.

use crate::advice::misfit::parameter::parameter;
use crate::advice::names::Names;
use crate::advice::sorts::{operand_of, sort_named, sort_of, sort_of_name};
use crate::site::Use;
use build_expressions::OperandSort;
use explain_syntax::Advice;
use sdl_tree::Expression;
use std::alloc::{AllocError, Global};

/// Of a value for something of another sort.
pub fn value_advice(
    alloc: Global,
    names: &Names<'_, '_>,
    word: &str,
    value: &Expression,
    given: Use<'_>,
) -> Result<Option<Advice>, AllocError> {
    let (Some(told), Some(wanted)) = (sort_of(names, value), wanted_sort(names, given)) else {
        return Ok(None);
    };
    if fits(told, wanted) {
        return Ok(None);
    }
    if told == OperandSort::Boolean && matches!(given, Use::Answer(_)) {
        return Ok(Some(Advice::alone(alloc, COMPARED)?));
    }
    let verb = verb_of(value);
    let told_text = operand_of(told);
    let place = place_text(alloc, given, wanted)?;
    let place = place.as_str();
    Ok(Some(Advice {
        text: format!(in alloc; "`{word}` {verb} {told_text}, and {place}")?,
    }))
}

/// Of a Boolean as the answer to a question that is none.
const COMPARED: &str =
    "An answer has the sort of its question, which is no Boolean here. It compares without naming the question again: \
     `(> 5):`, `(/= 0):`, or a range: `(1:5):`.";

/// Whether an operand of a sort fits where another one is wanted.
fn fits(told: OperandSort, wanted: OperandSort) -> bool {
    told == wanted
        || told == OperandSort::Free
            && matches!(
                wanted,
                OperandSort::Integer | OperandSort::Time | OperandSort::Duration
            )
        || wanted == OperandSort::Free && told == OperandSort::Integer
}

/// Whether the first word is all of an expression.
fn verb_of(value: &Expression) -> &'static str {
    match value {
        Expression::Number(_) | Expression::Name(_) | Expression::Keyword { .. } => "is",
        _ => "begins",
    }
}

/// The sort that is wanted of a value.
fn wanted_sort(names: &Names<'_, '_>, given: Use<'_>) -> Option<OperandSort> {
    match given {
        Use::Assigned(variable) => Some(OperandSort::of_sort(sort_of_name(
            names,
            variable.text.as_str(),
        )?)),
        Use::Initial(sort) => Some(OperandSort::of_sort(sort_named(sort.text())?)),
        Use::Parameter { of, kind, number } => {
            Some(OperandSort::of_sort(parameter(names, of, kind, number)?))
        }
        Use::Condition => Some(OperandSort::Boolean),
        Use::SetTime => Some(OperandSort::Time),
        Use::OwnDuration => Some(OperandSort::Duration),
        Use::Destination => Some(OperandSort::Pid),
        Use::Answer(question) => sort_of(names, question),
        Use::Count => Some(OperandSort::Integer),
    }
}

/// Says what is wanted at a place.
fn place_text(alloc: Global, given: Use<'_>, wanted: OperandSort) -> Result<String, AllocError> {
    let wanted = operand_of(wanted);
    match given {
        Use::Assigned(variable) => {
            let variable = variable.text.as_str();
            format!(in alloc;
                "the variable `{variable}` is {wanted}. Give it a value of its sort, or define it with another sort."
            )
        }
        Use::Initial(_) => format!(in alloc;
            "the sort before `:=` or `=` wants {wanted}. Give a value of that sort, or write another sort."
        ),
        Use::Parameter { of, number, .. } => {
            let of = of.text.as_str();
            let number = number.saturating_add(1);
            format!(in alloc;
                "parameter {number} of `{of}` is {wanted}. Give a value of its sort, or define it with another sort."
            )
        }
        Use::Condition => String::from_str(
            alloc,
            "a condition is a Boolean. Compare it with something, as in `n > 0`.",
        ),
        Use::SetTime => String::from_str(
            alloc,
            "a timer is set for a Time. Add a Duration to `now`, as in `set(now + 5, t)`.",
        ),
        Use::OwnDuration => String::from_str(
            alloc,
            "what a timer has of its own is a Duration, as in `timer t := 5;`.",
        ),
        Use::Destination => String::from_str(
            alloc,
            "a Pid or the name of a process has to stand after `to`.",
        ),
        Use::Answer(_) => format!(in alloc;
            "the question of the decision is {wanted}. An answer has the sort of its question."
        ),
        Use::Count => String::from_str(alloc, "a number of instances is a Natural."),
    }
}
