//! Sentences for a place where a name has to stand.

use crate::lines::{Around, is_number, mark_of};
use sdl_tree::Mark;

/// Gives the sentence for a place where a name has to stand: first what is said of it after a keyword.
pub fn name_sentence(around: &Around<'_>) -> Option<&'static str> {
    match around.leading {
        Some(Mark::Input) => input_sentence(around),
        Some(Mark::Set | Mark::Output | Mark::Create | Mark::NextState) => action_name_sentence(
            around,
        ),
        _ => defined_sentence(around),
    }
    .or(any_name_sentence(around))
}

/// Gives the sentence for a name in an input.
fn input_sentence(around: &Around<'_>) -> Option<&'static str> {
    match (mark_of(around.before), mark_of(around.at)) {
        (Some(Mark::Input), Some(Mark::Priority)) => Some(
            "`priority` comes first: `priority input a;`.",
        ),
        (Some(Mark::Input), Some(Mark::Else)) => Some(
            "`input *;` takes all the signals that the state doesn't name.",
        ),
        (Some(Mark::Input), Some(Mark::Timer)) => Some(
            "An input names a timer as it names a signal: `input t;`.",
        ),
        (_, Some(Mark::Open)) => Some(
            "An input takes no signal list. Name the signals, `input a, b;`, or all others: `input *;`.",
        ),
        _ => None,
    }
}

/// Gives the sentence for a name in an action or a terminator.
fn action_name_sentence(around: &Around<'_>) -> Option<&'static str> {
    match (around.leading, mark_of(around.before), mark_of(around.at)) {
        (Some(Mark::Set), Some(Mark::Open), None | Some(Mark::Now)) => Some(SET),
        (Some(Mark::Set), Some(Mark::Comma), None | Some(Mark::Now | Mark::Open | Mark::Minus)) =>
            Some("`set` has the time first, and the timer after it: `set(now + 3, t);`."),
        (Some(Mark::Output), Some(Mark::Comma), Some(Mark::To)) => {
            Some("No comma is before `to`: `output a to P;`.")
        }
        (Some(Mark::Output), Some(Mark::Output), Some(Mark::To)) => Some(
            "The signal comes first, and who gets it follows: `output a to p;`.",
        ),
        (Some(Mark::NextState), Some(Mark::NextState), Some(Mark::Stop | Mark::Join)) => Some(
            "`stop;` and `join NAME;` end a transition without a `nextstate` before them.",
        ),
        (Some(Mark::Output | Mark::Create), _, Some(Mark::Open)) => Some(
            "A name comes first, and its values follow in parentheses: `output a(1);`, `create P(1);`.",
        ),
        (Some(Mark::NextState), _, Some(Mark::Asterisk)) => Some(
            "`nextstate -;` leads to the state from which the transition began, and there is no `nextstate *;`.",
        ),
        _ => None,
    }
}

/// The sentence about a `set` with one part.
pub const SET: &str =
    "`set` has a time, a comma and the timer: `set(now + 5, t);`. One with a duration of its own is set by `set(t);`.";

/// The sentence about a parameter with a mode.
pub const MODE: &str =
    "A parameter is its name and its sort, without `in` or `out`: `fpar n Integer;`.";

/// Gives the sentence for a name in a definition.
fn defined_sentence(around: &Around<'_>) -> Option<&'static str> {
    match (around.leading, mark_of(around.before), mark_of(around.at)) {
        (Some(Mark::Dcl), Some(Mark::Comma), _) if is_number(around.at) => Some(
            "One initial value is for all the names before it: `dcl a, b Integer := 0;`.",
        ),
        (Some(Mark::Timer), Some(Mark::Open), _) if is_number(around.at) => Some(
            "The duration of a timer follows `:=`, as in `timer t := 5;`. In parentheses are the sorts of its values.",
        ),
        (Some(Mark::Signal | Mark::Timer), Some(Mark::Open), Some(Mark::Close)) => Some(
            "Sorts are in the parentheses. Leave them away if there are none: `signal a;`.",
        ),
        (Some(Mark::Synonym), None, Some(Mark::Equal | Mark::Assign)) => Some(
            "The sort of the synonym has to stand here: `synonym n Integer = 5;`.",
        ),
        (Some(Mark::With), _, Some(Mark::Asterisk)) => Some(
            "A path names its signals, and signal lists in parentheses: `with a, (L);`.",
        ),
        (Some(Mark::Fpar), None, Some(Mark::Slash)) => Some(MODE),
        _ => None,
    }
}

/// Gives the sentence for a name, wherever that is.
fn any_name_sentence(around: &Around<'_>) -> Option<&'static str> {
    match (mark_of(around.before), mark_of(around.at)) {
        _ if is_number(around.at) => Some("A name begins with a letter, and not with a digit."),
        (None, Some(Mark::Minus)) => Some(
            "A name has letters, digits and `_`, and no `-`. A sort follows the names: `dcl n Integer;`.",
        ),
        (Some(_), Some(Mark::Open)) => Some(
            "A name has to stand here, and no parenthesis opens before it.",
        ),
        (None, Some(Mark::Colon)) => Some(
            "The sort follows the names without a colon: `dcl n Integer;`.",
        ),
        (None, Some(Mark::Semicolon | Mark::Assign)) => Some(
            "A sort has to stand here, after the names: `dcl n Integer := 0;`.",
        ),
        _ => None,
    }
}
