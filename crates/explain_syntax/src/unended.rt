//! Sentences for a place where a semicolon has to stand.

use crate::call::call_sentence;
use crate::lines::{Around, is_number, mark_of, name_of};
use crate::wanted_name::MODE;
use sdl_tree::Mark;

/// Gives the sentence for a place where a semicolon has to stand.
pub fn semicolon_sentence(around: &Around<'_>) -> Option<&'static str> {
    match mark_of(around.at) {
        Some(Mark::Equal) => Some(
            "`:=` gives a variable its initial value and a timer its duration, and not `=`.",
        ),
        Some(Mark::Colon) => Some(colon_sentence(around.leading)),
        Some(Mark::Assign) => Some(
            "An assignment is an action of its own: write `task` before it.",
        ),
        Some(Mark::To) => Some("One destination alone, `to P`, can stand at the end of an output."),
        Some(Mark::Open) if around.goes_on() => Some(call_sentence(around)),
        Some(Mark::NoDelay) => Some(
            "`nodelay` follows the name of its channel: `channel c nodelay from env to P with a; endchannel;`.",
        ),
        Some(Mark::Close) => Some("This closes nothing: no parenthesis is open here."),
        Some(Mark::From) if around.leading == Some(Mark::Input) => Some(
            "An input names no sender. Ask for it by a decision: `decision sender = p;`.",
        ),
        Some(Mark::Less | Mark::LessOrEqual | Mark::Greater | Mark::GreaterOrEqual)
            if around.leading == Some(Mark::Input) => Some(
            "An input names a signal. A condition follows `provided`: `provided n > 0;`.",
        ),
        Some(Mark::Comma) if around.leading == Some(Mark::Create) => Some(
            "A `create` makes one instance. Write another one after it.",
        ),
        Some(Mark::Comma) if around.leading == Some(Mark::Output) => Some(
            "`to` names one receiver, at the end of an output. Write an output for each.",
        ),
        _ => Some(unended_sentence(around)),
    }
}

/// Gives the sentence about a colon after what this keyword begins.
fn colon_sentence(leading: Option<Mark>) -> &'static str {
    match leading {
        Some(Mark::Process) => {
            "`;` has to stand here: a process has no type, and what it does is written where it is."
        }
        Some(Mark::Signal) => "The sorts of a signal are in parentheses: `signal a(Integer);`.",
        _ => "`;` has to stand here, and not `:`, which follows answers and labels alone.",
    }
}

/// Gives the sentence for a place before which something isn't ended.
fn unended_sentence(around: &Around<'_>) -> &'static str {
    let is_name = name_of(around.at).is_some() && around.goes_on();
    match around.leading {
        _ if is_joining(around) =>
            "`,` is between the parts of a list, and neither `and` nor `or`.",
        Some(Mark::Start) if is_name => NO_NAME,
        Some(Mark::Input) if mark_of(around.at) == Some(Mark::Priority) => PRIORITY,
        Some(Mark::Input) if is_name => {
            "The variables of an input are in parentheses: `input a(n);`."
        }
        Some(Mark::Output) if is_number(around.at) => {
            "The values of a signal are in parentheses: `output a(5);`."
        }
        Some(Mark::Output) if name_of(around.before) == Some("all") => {
            "An output goes to one receiver. Write one for each."
        }
        Some(Mark::Fpar) if is_mode(name_of(around.earlier)) => MODE,
        Some(Mark::Signal) if is_mode(name_of(around.before)) => {
            "A signal has no direction: `signal a;`. Each path of a channel says where its signals go: `from env to P \
             with a;`."
        }
        Some(Mark::Signal) if is_name => {
            "The sorts of a signal are in parentheses, and a comma is between two signals: `signal a, b(Integer);`."
        }
        Some(Mark::Timer) if is_number(around.at) => {
            "`:=` gives a timer its duration: `timer t := 5;`."
        }
        Some(Mark::NextState) if mark_of(around.at) == Some(Mark::Asterisk) => {
            "`nextstate -;` leads to the state from which the transition began. There is no other history."
        }
        Some(Mark::Stop) if is_name => "`stop` ends the instance itself, and names none: `stop;`.",
        _ if is_name && is_number(around.before) => "`*` multiplies: `2 * n`.",
        _ if around.goes_on() =>
            "A `;` is missing: what comes before this isn't ended. Or it is, and this is too much.",
        _ => "A `;` is missing: what comes before this isn't ended.",
    }
}

const NO_NAME: &str =
    "A `start` has no name. The first state is that of its transition: `start; nextstate s;`.";

const PRIORITY: &str = "`priority` comes first: `priority input a;`.";

/// Whether `and` or `or` is at a place in a list.
fn is_joining(around: &Around<'_>) -> bool {
    let is_list = matches!(
        around.leading,
        Some(
            Mark::State
                | Mark::Input
                | Mark::Save
                | Mark::Output
                | Mark::Create
                | Mark::Signal
                | Mark::SignalList
                | Mark::Dcl
                | Mark::Timer
                | Mark::Reset
                | Mark::With
        )
    );
    is_list && matches!(mark_of(around.at), Some(Mark::And | Mark::Or))
}

/// Whether a name is one of a kind of parameters in the standard.
fn is_mode(name: Option<&str>) -> bool {
    matches!(name, Some("in" | "out" | "inout"))
}
