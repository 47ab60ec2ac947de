//! Advice on an operator or a sign, and operands that it doesn't take.

use crate::advice::names::Names;
use crate::advice::sorts::{operand_of, sides_of, sort_of};
use build_expressions::OperandSort;
use explain_syntax::Advice;
use sdl_tree::{Chain, Expression, UnaryOperator};
use std::alloc::{AllocError, Global};

/// Of an operator between two operands.
pub fn operator_advice(
    alloc: Global,
    names: &Names<'_, '_>,
    word: &str,
    chain: &Chain,
    number: usize,
) -> Result<Option<Advice>, AllocError> {
    let Some((left, right)) = sides_of(names, chain, number) else {
        return Ok(None);
    };
    if is_chained(word, left, right) {
        return Ok(Some(Advice::about(alloc, word, CHAINED)?));
    }
    let takes = if is_duration_wanted(left, right) {
        DURATION
    } else {
        operator_takes(word)
    };
    let left = operand_of(left);
    let right = operand_of(right);
    Ok(Some(Advice {
        text: format!(in alloc; "`{word}` stands between {left} and {right}. It takes {takes}.")?,
    }))
}

/// Whether a comparison is compared with a number.
fn is_chained(word: &str, left: OperandSort, right: OperandSort) -> bool {
    let is_comparison = matches!(word, "<" | "<=" | ">" | ">=" | "=" | "/=");
    is_comparison && left == OperandSort::Boolean && is_ordered(right)
}

fn is_ordered(sort: OperandSort) -> bool {
    match sort {
        OperandSort::Free | OperandSort::Integer | OperandSort::Time | OperandSort::Duration =>
            true,
        OperandSort::Boolean | OperandSort::Pid => false,
    }
}

const CHAINED: &str =
    "compares two values, and a Boolean is before it, as a comparison gives. Join two comparisons: `0 < n and n < 5`.";

/// Whether a Time or a Duration stands beside an Integer.
fn is_duration_wanted(left: OperandSort, right: OperandSort) -> bool {
    match (left, right) {
        (OperandSort::Time | OperandSort::Duration, other)
        | (other, OperandSort::Time | OperandSort::Duration) => other == OperandSort::Integer,
        _ => false,
    }
}

const DURATION: &str =
    "a Duration there, and no function makes one of an Integer. Define it as a Duration: `dcl d Duration := 5;`";

/// What an operator takes.
fn operator_takes(word: &str) -> &'static str {
    match word {
        "+" => "two Integers, two Durations, or a Time and a Duration",
        "-" => "two Integers, two Times, two Durations, or a Time and a Duration after it",
        "<" | "<=" | ">" | ">=" => "two Integers, two Times or two Durations",
        "=" | "/=" => "two values of one sort",
        "*" | "/" => "two Integers",
        _ if word.eq_ignore_ascii_case("mod") || word.eq_ignore_ascii_case("rem") => "two Integers",
        _ => "two Booleans",
    }
}

/// Of a sign before an operand.
pub fn sign_advice(
    alloc: Global,
    names: &Names<'_, '_>,
    operator: UnaryOperator,
    operand: &Expression,
) -> Result<Option<Advice>, AllocError> {
    let Some(told) = sort_of(names, operand) else {
        return Ok(None);
    };
    let told = operand_of(told);
    let text = match operator {
        UnaryOperator::Minus => format!(in alloc;
            "`-` stands before {told}. It takes an Integer or a Duration."
        )?,
        UnaryOperator::Not => format!(in alloc;
            "`not` stands before {told}. It takes a Boolean, and binds tighter than all other operators: write \
             parentheses, as in `not (a = b)`."
        )?,
    };
    Ok(Some(Advice { text }))
}
