//! Where a line stops being one of a script, and the sentences about that.

use crate::script_fault::{LineFault, NO_COMMENT};
use crate::script_receiver::{end_fault, ends_line};
use crate::script_value::values_fault;
use crate::script_words::{begins_word, digits_len, past_spaces, skipped, spaces_len, word_in};
use sdl_tree::is_reserved;

/// What is wrong in a line that says nothing. None if nothing is found.
pub fn line_fault(line: &[u8]) -> Option<LineFault<'_>> {
    let line = line.trim_ascii_end();
    let time = skipped(line, spaces_len(line));
    let len = digits_len(time);
    if len == 0 {
        return Some(LineFault::at(time, no_time_sentence(time)));
    }
    if is_late(skipped_zeros(time.get(..len).unwrap_or(&[]))) {
        return Some(LineFault::at(time, LATE));
    }
    let signal = past_spaces(time, len);
    if begins_word(signal) {
        signal_fault(signal)
    } else if signal.is_empty() {
        None
    } else {
        Some(LineFault::at(signal, no_name_sentence(signal)))
    }
}

/// What is wrong from the signal on.
fn signal_fault(signal: &[u8]) -> Option<LineFault<'_>> {
    let word = word_in(signal);
    if is_reserved(word.as_bytes()) {
        return Some(LineFault::at(signal, KEYWORD));
    }
    let after = past_spaces(signal, word.len());
    if is_unit(word) && begins_word(after) && !ends_line(after) {
        return Some(LineFault::at(signal, UNIT));
    }
    match after.first() {
        Some(b'(') => values_fault(after),
        _ => end_fault(after),
    }
}

/// A number without the zeros with which it begins.
fn skipped_zeros(digits: &[u8]) -> &[u8] {
    skipped(
        digits,
        digits.iter().take_while(|byte| **byte == b'0').count(),
    )
}

/// Whether a time is past the greatest one, which has sixteen digits.
fn is_late(digits: &[u8]) -> bool {
    digits.len() > 16 || digits.len() == 16 && !matches!(digits, b"1000000000000000")
}

fn is_unit(word: &str) -> bool {
    matches!(
        word,
        "h" | "min" | "s" | "sec" | "seconds" | "ms" | "us" | "ns" | "tick" | "ticks"
    )
}

/// Gives the sentence about a line that doesn't begin with a time.
fn no_time_sentence(line: &[u8]) -> &'static str {
    match line {
        [b'%', ..] =>
            "The line `%script` stands once, before the script. What follows is `TIME NAME(VALUES)`.",
        [b'#', ..] | [b'/', b'/' | b'*', ..] | [b'-', b'-', ..] => NO_COMMENT,
        [b'-', b'0'..=b'9', ..] => "A time isn't negative: a run begins at the time 0.",
        [b'+', ..] => {
            "A time has no sign, and counts from the beginning of the run: 3 ticks after a line of the time 4 is `7 a`."
        }
        [b'A'..=b'Z' | b'a'..=b'z', ..] if is_waiting(word_in(line)) => {
            "A time alone lets time pass: `10` goes on to the time 10."
        }
        _ => "A line of a script begins with its time: `0 a` sends the signal `a` at the time 0.",
    }
}

fn is_waiting(word: &str) -> bool {
    matches!(word, "until" | "wait" | "run" | "sleep" | "delay" | "end")
}

/// Gives the sentence about what comes after the time and begins no name.
fn no_name_sentence(rest: &[u8]) -> &'static str {
    match rest {
        [b'.' | b',', b'0'..=b'9', ..] =>
            "A time is a whole number of ticks: `5 a`. Let a tick be shorter.",
        [b'#', b'0'..=b'9', ..] => NAME,
        [b'#', ..] | [b'/', b'/' | b'*', ..] | [b'-', b'-', ..] => NO_COMMENT,
        [
            b'A'..=b'Z' | b'a'..=b'z' | b'0'..=b'9' | b'(' | b'_' | b'\'' | b'"',
            ..
        ] => NAME,
        _ => "No mark follows the time: `0 a`.",
    }
}

const LATE: &str = "A time is 1000000000000000 ticks at most.";

const UNIT: &str = "A time is a number of ticks, and has no unit: `10 a`.";

const NAME: &str = "After its time a line has the name of a signal: `0 a`, and `0 a to #2`.";

const KEYWORD: &str =
    "A keyword is no signal: after its time a line has the name of a signal alone, `0 a`, or with its values: `0 \
     a(1)`.";
