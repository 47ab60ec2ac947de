//! Sentences for a place where a keyword or a mark has to stand.

use crate::lines::{Around, mark_of, name_of};
use crate::misplaced::{end_sentence, start_sentence};
use crate::unended::semicolon_sentence;
use crate::wanted_name::SET;
use sdl_tree::Mark;

/// Gives the sentence for a place where a mark has to stand.
pub fn mark_sentence(around: &Around<'_>, wanted: Mark) -> Option<&'static str> {
    match wanted {
        Mark::Colon => colon_sentence(around),
        Mark::Semicolon => semicolon_sentence(around),
        Mark::Open => open_sentence(around),
        Mark::Close => close_sentence(around),
        Mark::Assign => assign_sentence(around),
        Mark::Comma => comma_sentence(around),
        Mark::Equal if mark_of(around.at) == Some(Mark::Assign) => Some(
            "`=` has to stand here: `synonym n Integer = 5;`. A variable alone has `:=`.",
        ),
        Mark::Equal if mark_of(around.at) == Some(Mark::Open) => Some(
            "`=` has to stand here: `signallist L = a, b;`.",
        ),
        Mark::From => from_sentence(around),
        Mark::EndChannel if mark_of(around.at) == Some(Mark::From) => Some(
            "A channel has two paths at most. Write another channel.",
        ),
        Mark::EndChannel if is_end_of_path(around) => Some(PATH),
        Mark::Start => start_sentence(around),
        Mark::EndProcess | Mark::EndDecision | Mark::EndState | Mark::EndBlock | Mark::EndSystem =>
            { end_sentence(around, wanted) }
        _ => None,
    }
}

/// Gives the sentence for a place where a path of a channel has to begin.
fn from_sentence(around: &Around<'_>) -> Option<&'static str> {
    if mark_of(around.at) == Some(Mark::Semicolon) {
        Some(
            "A channel's name is followed by its paths at once: `channel c from env to P with a; endchannel;`.",
        )
    } else if is_end_of_path(around) {
        Some(PATH)
    } else {
        None
    }
}

/// Whether an end of a path stands where the path has to begin: what comes after such an end follows it.
pub fn is_end_of_path(around: &Around<'_>) -> bool {
    let is_end = name_of(around.at).is_some() || mark_of(around.at) == Some(Mark::Env);
    is_end
        && matches!(
            mark_of(around.after),
            Some(Mark::To | Mark::Minus | Mark::Less | Mark::With)
        )
}

/// The sentence about a path whose first end has no word before it.
pub const PATH: &str =
    "A path begins with `from`, and `to` is before its other end: `from env to P with a;`.";

/// Gives the sentence for a place where a value has to be given to a variable.
fn assign_sentence(around: &Around<'_>) -> Option<&'static str> {
    let Some(mark) = mark_of(around.at) else {
        return Some(ASSIGNED);
    };
    match mark {
        Mark::Equal => Some(
            "`:=` gives a variable its value, and `=` asks whether two values are equal: `task n := 5;`.",
        ),
        Mark::Colon => Some("`:=` is one mark, without a blank in it: `task n := 5;`."),
        Mark::Open => Some(
            "There are no arrays. Write a variable for each place, and ask by a decision which of them is meant.",
        ),
        _ => Some(ASSIGNED),
    }
}

const ASSIGNED: &str = "A task gives a variable a value: `task n := 5;`.";

/// Gives the sentence for a place where a comma has to stand.
fn comma_sentence(around: &Around<'_>) -> Option<&'static str> {
    match around.leading? {
        Mark::Set => Some(SET),
        _ => None,
    }
}

/// Gives the sentence for a place where a colon has to stand: after a label, an answer or `else`.
fn colon_sentence(around: &Around<'_>) -> Option<&'static str> {
    match (mark_of(around.before), mark_of(around.at)) {
        (None, Some(Mark::Assign)) => {
            Some("An assignment begins with the keyword `task`: `task n := 1;`.")
        }
        (None, Some(Mark::Open)) => Some(
            "There are no functions and no procedures to call. An action begins with a keyword: `task n := 1;`, \
             `output a(1);`, `set(now + 5, t);`, `create P(1);`, `decision n;`.",
        ),
        (None, Some(Mark::Semicolon)) if around.leading == Some(Mark::Connection) => Some(
            "`:` has to stand here, after the label: `connection c: stop;`.",
        ),
        (None, _) => Some(
            "The name before would be a label, with `:` after it. An action begins with a keyword: `task n := 1;`, \
             `output a;`, `set(now + 5, t);`, `reset(t);`, `create P;`, `decision n;`.",
        ),
        (Some(Mark::Close), _) => Some("`:` has to stand here, after the answers: `(1): stop;`."),
        (Some(Mark::Else), _) => Some("`:` has to stand here: `else: stop;`."),
        _ => None,
    }
}

/// Gives the sentence for a place where a parenthesis has to open.
fn open_sentence(around: &Around<'_>) -> Option<&'static str> {
    match mark_of(around.before) {
        Some(Mark::Set) if mark_of(around.after) == Some(Mark::Open) => Some(
            "The timer has no parentheses, and the time comes before it: `set(now + 5, t);`.",
        ),
        Some(Mark::Set) => Some(
            "`set` has parentheses, with the time first: `set(now + 5, t);`, or `set(t);` for a timer with a duration \
             of its own.",
        ),
        Some(Mark::Reset) => Some("`reset` has parentheses: `reset(t);`."),
        Some(Mark::Active) => Some("`active` has parentheses: `active(t)`."),
        Some(Mark::Semicolon) => Some(
            "The answers of the decision begin here, each in parentheses: `(1): stop;`.",
        ),
        _ => None,
    }
}

/// Gives the sentence for a place where a parenthesis has to close.
fn close_sentence(around: &Around<'_>) -> Option<&'static str> {
    match around.leading? {
        Mark::Signal | Mark::Timer => Some(
            "A signal has sorts in its parentheses, without names: `signal a(Integer);`. A process has its parameters \
             after `fpar`: `process P; fpar n Integer;`.",
        ),
        Mark::Set => Some(SET),
        Mark::Input => Some(
            "An input has variables in its parentheses, which take the values: `input a(n);`. Ask for a value by a \
             decision after it.",
        ),
        Mark::Process => Some(
            "In these parentheses are numbers of instances: `process P(2);`. A process has its parameters after \
             `fpar`: `process P; fpar n Integer;`.",
        ),
        Mark::With | Mark::Save | Mark::SignalList => Some(
            "A signal list is in parentheses alone, and signals have none: `(L), a, b`.",
        ),
        _ => None,
    }
}
