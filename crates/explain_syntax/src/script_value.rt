//! Sentences about the values in a line of a script.

use crate::script_fault::LineFault;
use crate::script_receiver::end_fault;
use crate::script_words::{begins_word, digits_len, past_spaces, skipped, word_in};

/// What is wrong from the parenthesis on with which the values begin.
pub fn values_fault(values: &[u8]) -> Option<LineFault<'_>> {
    if past_spaces(values, 1).first() == Some(&b')') {
        return Some(LineFault::at(values, EMPTY));
    }
    let len = values.iter().take_while(|byte| **byte != b')').count();
    let inside = values.get(1..len).unwrap_or(&[]);
    let mut rest = skipped(values, 1);
    for value in inside.split(|byte| *byte == b',') {
        if let Some(fault) = value_fault(past_spaces(rest, 0)) {
            return Some(fault);
        }
        rest = skipped(rest, value.len().saturating_add(1));
    }
    let close = skipped(values, len);
    if close.is_empty() {
        Some(LineFault::at(close, OPEN))
    } else {
        end_fault(past_spaces(close, 1))
    }
}

/// What is wrong with the value that begins here, or directly after it.
fn value_fault(value: &[u8]) -> Option<LineFault<'_>> {
    let number = match value.first() {
        Some(b'#' | b'-') => past_spaces(value, 1),
        _ => value,
    };
    let word = word_in(value);
    let digits = digits_len(number);
    if digits > 0 {
        after_fault(skipped(number, digits))
    } else if is_literal(word) {
        after_fault(skipped(value, word.len()))
    } else {
        Some(LineFault::at(value, value_sentence(value)))
    }
}

fn is_literal(word: &str) -> bool {
    match word {
        "true" | "True" | "TRUE" | "false" | "False" | "FALSE" => true,
        "null" | "Null" | "NULL" | "env" | "ENV" => true,
        _ => false,
    }
}

/// What is wrong after a value: neither the next one nor the end of the values follows.
fn after_fault(rest: &[u8]) -> Option<LineFault<'_>> {
    let next = past_spaces(rest, 0);
    match next {
        [] | [b',' | b')', ..] => None,
        _ if is_part(rest) => Some(LineFault::at(rest, WHOLE)),
        [b'+' | b'-' | b'*' | b'/' | b'%', ..] => Some(LineFault::at(next, COMPUTED)),
        _ => Some(LineFault::at(next, COMMA)),
    }
}

/// Whether what follows a number at once would belong to it.
fn is_part(rest: &[u8]) -> bool {
    begins_word(rest) || matches!(rest, [b'.' | b'_', ..])
}

/// Gives the sentence about what is no value.
fn value_sentence(value: &[u8]) -> &'static str {
    match value {
        [] | [b',' | b')', ..] => "A value is missing here, or a comma is too much: `0 a(1, 2)`.",
        [b'+', ..] => "A number has no plus sign: `0 a(5)`.",
        [b'\'' | b'"', ..] => {
            "No value is a character string. Values are whole numbers, `true`, `false`, `null`, `env` and `#NUMBER`."
        }
        _ if has_name(value) => {
            "Values have no names here. Write them in the order of the signal's definition: `0 a(1, true)`."
        }
        _ if begins_word(value) => {
            "A script knows no variables and no synonyms. Write the value itself: a whole number, `true`, `false`, \
             `null`, `env` or `#NUMBER`."
        }
        _ => VALUE,
    }
}

/// Whether a word is a name to which a value would be given.
fn has_name(value: &[u8]) -> bool {
    let after = past_spaces(value, word_in(value).len());
    begins_word(value) && matches!(after, [b'=' | b':', ..])
}

const EMPTY: &str = "A signal without values has no parentheses: `0 a`.";

const OPEN: &str = "`)` is missing after the values: `0 a(1, 2)`.";

const WHOLE: &str = "A value is a whole number, and has decimal digits alone: `0 a(5)`.";

const COMPUTED: &str = "Nothing is computed in a script. Write the value itself: `0 a(2)`.";

const COMMA: &str = "A comma is between two values, and `)` after the last one: `0 a(1, 2)`.";

const VALUE: &str =
    "Here a value has to stand: a whole number, `true`, `false`, `null`, `env` or `#NUMBER`.";
