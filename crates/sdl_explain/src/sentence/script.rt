//! Sentences about the lines of a script.

use crate::advice::{Sent, sent_values_advice, unsent_advice};
use explain_syntax::{Advice, Excerpt, NO_MEMORY, about_marked, line_fault, name_in, receiver_in};
use sdl_script::ScriptError;
use sdl_tree::Tree;
use std::alloc::{AllocError, Global};
use std::str;

/// Gives the advice on a script for this specification that is refused. `shown` is the part of it that is shown.
pub fn script_advice(
    alloc: Global,
    tree: Option<&Tree>,
    error: ScriptError,
    shown: &Option<Excerpt<'_>>,
) -> Result<Advice, AllocError> {
    let (Some(tree), Some(excerpt)) = (tree, shown) else {
        return about_marked(alloc, shown, script_sentence(error));
    };
    match error {
        ScriptError::Syntax(_) => {
            let line = line_of(alloc, excerpt)?;
            Advice::alone(alloc, syntax_sentence(&line))
        }
        ScriptError::UnknownSignal(_) => {
            let line = line_of(alloc, excerpt)?;
            let sent = Sent {
                signal: name_in(&line),
                receiver: receiver_in(&line),
            };
            unsent_advice(alloc, tree, sent)
        }
        ScriptError::Arguments(_) => values_advice(alloc, tree, excerpt),
        _ => about_marked(alloc, shown, script_sentence(error)),
    }
}

/// The line of an excerpt.
fn line_of(alloc: Global, excerpt: &Excerpt<'_>) -> Result<Vec<u8>, AllocError> {
    let mut line = Vec::from_slice(alloc, excerpt.before)?;
    line.extend_from_slice(excerpt.behind)?;
    Ok(line)
}

/// Of a signal with other values than its definition says, or a receiver whose number is past 32 bits.
fn values_advice(alloc: Global, tree: &Tree, excerpt: &Excerpt<'_>) -> Result<Advice, AllocError> {
    let line = line_of(alloc, excerpt)?;
    if ends_with_great_number(&line) {
        return Advice::alone(alloc, GREAT_INSTANCE);
    }
    if has_great_number(&line) {
        return Advice::alone(alloc, GREAT_NUMBER);
    }
    let signal = name_in(&line);
    match sent_values_advice(alloc, tree, signal)? {
        Some(advice) => Ok(advice),
        None => Advice::about(alloc, signal, script_sentence(ScriptError::Arguments(1))),
    }
}

/// Whether a line ends with a number of ten digits or more after `#`.
fn ends_with_great_number(line: &[u8]) -> bool {
    let line = line.trim_ascii_end();
    let len = line
        .iter()
        .rev()
        .take_while(|byte| byte.is_ascii_digit())
        .count();
    let before = line.get(..line.len().saturating_sub(len)).unwrap_or(&[]);
    len >= 10 && before.ends_with(b"#")
}

/// Whether a number of a line doesn't fit 64 bits.
fn has_great_number(line: &[u8]) -> bool {
    line.split(|byte| !byte.is_ascii_digit() && *byte != b'-')
        .any(|number| is_great(number))
}

fn is_great(number: &[u8]) -> bool {
    match str::from_utf8(number) {
        Ok(number) => number.len() >= 19 && number.parse::<i64>().is_err(),
        Err(_) => false,
    }
}

const GREAT_INSTANCE: &str = "The number of an instance is 4294967295 at most.";

const GREAT_NUMBER: &str =
    "A number is between -9223372036854775808 and 9223372036854775807: it has 64 bits.";

/// Gives the sentence about a line that is none of a script.
fn syntax_sentence(line: &[u8]) -> &'static str {
    match line_fault(line) {
        Some(fault) => fault.sentence,
        None => script_sentence(ScriptError::Syntax(1)),
    }
}

/// Gives the sentence about a fault in a script.
fn script_sentence(error: ScriptError) -> &'static str {
    match error {
        ScriptError::Syntax(_) => {
            "This line isn't `TIME`, `TIME NAME` or `TIME NAME(VALUES)`, perhaps with `to #NUMBER` or `to NAME` \
             after it. A time is a whole number, 1000000000000000 at most. Values are whole numbers, `true`, `false`, \
             `null`, `env` and `#NUMBER`, with commas between them. A comment has `#` as its first byte."
        }
        ScriptError::BackInTime(_) => {
            "is less than the time of a line before. Sort the lines by their times."
        }
        ScriptError::UnknownSignal(_) => {
            "can't be sent: no signal of the system itself has this name; or no channel leads it from `env` to a \
             process, or no process has the name after `to`. Define it in the system, name it in a channel from \
             `env`, or mend the spelling."
        }
        ScriptError::Arguments(_) => {
            "has other values than its definition says. Write one for each parameter, of its sort and in its range."
        }
        ScriptError::Memory => NO_MEMORY,
    }
}
