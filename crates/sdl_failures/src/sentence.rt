//! What is said of a failure.

use crate::reason::Reason;
use port_model::Value;
use run_record::Failure;
use sdl_system::{Answer, Arithmetic, Comparison, Decision, number_of};
use std::alloc::{AllocError, Global};

/// So many answers of a decision are told.
const MOST_ANSWERS: usize = 12;

/// Says why something fails.
pub fn reason_text(alloc: Global, reason: &Reason<'_>) -> Result<String, AllocError> {
    match *reason {
        Reason::NoValue(name) => format!(in alloc; "`{name}` has no value yet"),
        Reason::Calculation {
            left,
            operation,
            right,
        } => calculation_text(alloc, left, operation, right),
        Reason::Negation(value) => format!(in alloc; "-({value}) is too great"),
        Reason::Later { now, duration } => format!(in alloc; "{now} + {duration} is too great"),
        Reason::Time(now) => format!(in alloc; "the time {now} is too great"),
        Reason::NotNatural {
            value,
            variable: Some(name),
        } => format!(in alloc; "{value} is less than 0, and `{name}` is a Natural"),
        Reason::NotNatural {
            value,
            variable: None,
        } => format!(in alloc; "{value} is less than 0, and a Natural is wanted"),
        Reason::NoAnswer(value) => format!(in alloc; "there is no answer for {value}, and no else"),
        Reason::TooLong => {
            String::from_str(
                alloc,
                "10,000 statements were done in this transition before",
            )
        }
    }
}

/// Says what an operation comes to that has no number.
fn calculation_text(
    alloc: Global,
    left: Value,
    operation: Arithmetic,
    right: Value,
) -> Result<String, AllocError> {
    let sign = arithmetic_sign(operation);
    if divides(operation) && number_of(right) == 0 {
        return format!(in alloc; "{left} {sign} {right} is a division by zero");
    }
    let fault = if is_below(left, operation, right) {
        "small"
    } else {
        "great"
    };
    format!(in alloc; "{left} {sign} {right} is too {fault}")
}

fn divides(operation: Arithmetic) -> bool {
    matches!(
        operation,
        Arithmetic::Divide | Arithmetic::Mod | Arithmetic::Rem
    )
}

/// Whether a number past 64 bits to which an operation comes is less than 0.
fn is_below(left: Value, operation: Arithmetic, right: Value) -> bool {
    let is_left_below = number_of(left) < 0;
    let is_right_below = number_of(right) < 0;
    match operation {
        Arithmetic::Plus => is_right_below,
        Arithmetic::Minus => !is_right_below,
        Arithmetic::Times => is_left_below != is_right_below,
        Arithmetic::Divide | Arithmetic::Mod | Arithmetic::Rem => false,
    }
}

fn arithmetic_sign(operation: Arithmetic) -> &'static str {
    match operation {
        Arithmetic::Plus => "+",
        Arithmetic::Minus => "-",
        Arithmetic::Times => "*",
        Arithmetic::Divide => "/",
        Arithmetic::Mod => "mod",
        Arithmetic::Rem => "rem",
    }
}

/// Says why an instance failed of which no more is known.
pub fn failure_text(why: Failure) -> &'static str {
    match why {
        Failure::Overflow => "a number is past 64 bits",
        Failure::ZeroDivisor => "a number is divided by zero",
        Failure::Undefined => "a variable has no value yet",
        Failure::NotNatural => "a number is less than 0 where a Natural is wanted",
        Failure::NoAnswer => "a decision has no answer for the value of its question",
        Failure::TooLong => "a transition has more than 10,000 statements",
        Failure::Memory => "there was no memory",
        Failure::SetsSpent => "its timers were set too often",
    }
}

/// Lists the answers of a decision, some if there are many.
pub fn answers_text(alloc: Global, asked: &Decision) -> Result<String, AllocError> {
    let mut text = String::from_str(alloc, ". The answers are ")?;
    let mut count = 0usize;
    for branch in &asked.branches {
        for answer in &branch.answers {
            if count == MOST_ANSWERS {
                text.push_str(", ..")?;
            }
            if count < MOST_ANSWERS {
                push_separator(&mut text, count)?;
                push_answer(&mut text, answer)?;
            }
            count = count.saturating_add(1);
        }
    }
    Ok(text)
}

fn push_separator(text: &mut String, count: usize) -> Result<(), AllocError> {
    if count > 0 {
        text.push_str(", ")?;
    }
    Ok(())
}

fn push_answer(text: &mut String, answer: &Answer) -> Result<(), AllocError> {
    match *answer {
        Answer::Value(value) => write!(text, "{value}"),
        Answer::Range { first, last } => write!(text, "{first}:{last}"),
        Answer::Compared { comparison, value } => {
            let sign = comparison_sign(comparison);
            write!(text, "{sign} {value}")
        }
    }
}

fn comparison_sign(comparison: Comparison) -> &'static str {
    match comparison {
        Comparison::Equal => "=",
        Comparison::NotEqual => "/=",
        Comparison::Less => "<",
        Comparison::LessOrEqual => "<=",
        Comparison::Greater => ">",
        Comparison::GreaterOrEqual => ">=",
    }
}
