//! Sentences about what follows the signal and its values in a line of a script.

use crate::script_fault::{LineFault, NO_COMMENT};
use crate::script_words::{begins_word, digits_len, past_spaces, word_in};
use sdl_tree::is_reserved;

/// What is wrong after the signal and its values, where the line ends or `to` follows.
pub fn end_fault(rest: &[u8]) -> Option<LineFault<'_>> {
    if rest.is_empty() {
        None
    } else if ends_line(rest) {
        receiver_fault(past_spaces(rest, 2))
    } else {
        Some(LineFault::at(rest, end_sentence(rest)))
    }
}

/// Whether the word `to` is here, with which the last part of a line begins.
pub fn ends_line(rest: &[u8]) -> bool {
    matches!(word_in(rest), "to" | "TO")
}

/// Gives the sentence about what follows a signal and is not `to`.
fn end_sentence(rest: &[u8]) -> &'static str {
    match rest {
        [b';', ..] => SEMICOLON,
        [b'#', ..] | [b'/', b'/' | b'*', ..] | [b'-', b'-', ..] => NO_COMMENT,
        [b'-', b'>', ..] => RECEIVER,
        [
            b'0'..=b'9' | b'-' | b'[' | b'{' | b'=' | b':' | b'\'' | b'"',
            ..
        ] => VALUES,
        [b',' | b'&' | b'|', ..] => ONE_SIGNAL,
        [b'*', ..] => "Each signal has a line of its own, also one that is sent again.",
        _ if begins_word(rest) => word_sentence(word_in(rest)),
        _ => RECEIVER,
    }
}

/// Gives the sentence about a word after a signal.
fn word_sentence(word: &str) -> &'static str {
    match word {
        "true" | "false" | "null" => VALUES,
        "and" => ONE_SIGNAL,
        "from" => {
            "The environment sends all signals of a script, and so a line names no sender: `0 a`, or `0 a to P`."
        }
        "via" => {
            "A line names no channel. Its signal goes along a channel from `env`, or `to` a process or an instance."
        }
        "at" | "after" => "The time comes first in a line: `5 a`.",
        _ if word.eq_ignore_ascii_case("to") =>
            "`to` is in lower case or in upper case throughout: `0 a to P`.",
        _ => "One name follows the time, that of a signal. Who gets it follows `to`: `0 a to P`.",
    }
}

/// What is wrong after `to`.
fn receiver_fault(rest: &[u8]) -> Option<LineFault<'_>> {
    let word = word_in(rest);
    match rest {
        [] => Some(LineFault::at(rest, MISSING)),
        [b'#', ..] => instance_fault(rest),
        [b'0'..=b'9', ..] => Some(LineFault::at(
            rest,
            "The number of an instance has `#` before it: `0 a to #1`. Else a process follows `to`: `0 a to P`.",
        )),
        _ if is_reserved(word.as_bytes()) => Some(LineFault::at(rest, reserved_sentence(word))),
        _ if begins_word(rest) => after_receiver(past_spaces(rest, word.len())),
        _ => Some(LineFault::at(rest, MISSING)),
    }
}

/// What is wrong from the mark before the number of an instance on.
fn instance_fault(rest: &[u8]) -> Option<LineFault<'_>> {
    let number = past_spaces(rest, 1);
    match digits_len(number) {
        0 => Some(LineFault::at(
            rest,
            "`#` and a number are an instance, `0 a to #2`, and a process has its name alone: `0 a to P`.",
        )),
        len => after_receiver(past_spaces(number, len)),
    }
}

/// Gives the sentence about a keyword after `to`.
fn reserved_sentence(word: &str) -> &'static str {
    if word.eq_ignore_ascii_case("env") {
        "The environment sends the signals of a script, and gets none of them. Name a process, `0 a to P`, or leave \
         `to` away."
    } else {
        "No instance sends the lines of a script, so this word stands for none. Name a process, `0 a to P`, or an \
         instance by its number: `0 a to #2`."
    }
}

/// What is wrong after the receiver, where the line ends.
fn after_receiver(rest: &[u8]) -> Option<LineFault<'_>> {
    let sentence = match rest {
        [] => return None,
        [b';', ..] => SEMICOLON,
        [b'#', b'0'..=b'9', ..] | [b'0'..=b'9' | b'(' | b'[' | b'.' | b':' | b'@', ..] => {
            "An instance is named by its number alone, `0 a to #1`, and values follow their signal: `0 a(1) to P`."
        }
        [b'#', ..] | [b'/', b'/' | b'*', ..] | [b'-', b'-', ..] => NO_COMMENT,
        [b',' | b'&', ..] => ONE_RECEIVER,
        _ if matches!(word_in(rest), "and" | "to") => ONE_RECEIVER,
        _ => "A line ends after who gets its signal: `0 a(1) to P`.",
    };
    Some(LineFault::at(rest, sentence))
}

const SEMICOLON: &str = "A line of a script ends without a semicolon: `0 a(1)`.";

const VALUES: &str =
    "The values of a signal are in parentheses, with commas between them: `0 a(1, true)`.";

const ONE_SIGNAL: &str = "A line sends one signal. Write a line for each, with its time.";

const ONE_RECEIVER: &str = "A line has one receiver. Write a line for each, with its time.";

const MISSING: &str =
    "After `to` is the name of a process, `0 a to P`, or the number of an instance: `0 a to #2`.";

const RECEIVER: &str =
    "After a signal and its values a line ends, or `to` and who gets it follow: `0 a(1) to P`, `0 a to #2`.";
