//! The keyword that is meant by a word that is none.

use crate::habit::habit_sentence;
use crate::lines::{Advice, Around, Nearest, lowered, mark_of, name_of};
use crate::misplaced::continues_list;
use crate::wanted_mark::is_end_of_path;
use parse_expressions::Wanted;
use sdl_tree::{Mark, keyword_of};
use std::alloc::{AllocError, Global};

/// Gives the advice about a name where none can be: another language has it as a word, or a keyword is near to it.
pub fn keyword_advice(
    alloc: Global,
    around: &Around<'_>,
    wanted: &Wanted,
) -> Result<Option<Advice>, AllocError> {
    let Some(name) = misplaced_name(around, wanted) else {
        return Ok(None);
    };
    let lower = lowered(alloc, name)?;
    let lower = lower.as_str();
    if keyword_of(lower.as_bytes()).is_some() {
        return Ok(Some(mixed_advice(alloc, name, lower)?));
    }
    match habit_sentence(lower) {
        Some(sentence) => Ok(Some(Advice::alone(alloc, sentence)?)),
        None => near_advice(alloc, around, name, lower),
    }
}

/// Gives the name that can't be where it is: the one before a place where a colon would make it a label, or the one at
/// the place.
fn misplaced_name<'t>(around: &Around<'t>, wanted: &Wanted) -> Option<&'t str> {
    match wanted {
        // A variable, whose `task` is missing.
        Wanted::Mark(Mark::Colon) if mark_of(around.at) == Some(Mark::Assign) => None,
        Wanted::Mark(Mark::From | Mark::EndChannel) if is_end_of_path(around) => None,
        Wanted::Mark(Mark::Colon) => name_of(around.before).or(name_of(around.at)),
        Wanted::Mark(Mark::Semicolon) if !around.goes_on() => None,
        Wanted::Mark(Mark::Semicolon | Mark::Close) if is_sort(name_of(around.at)) => None,
        Wanted::Mark(_) | Wanted::Action => name_of(around.at),
        _ => None,
    }
}

/// Whether a name is that of a sort.
fn is_sort(name: Option<&str>) -> bool {
    matches!(
        name,
        Some("Integer" | "Natural" | "Boolean" | "Pid" | "PId" | "Time" | "Duration")
    )
}

/// About a keyword that is in lower case in part.
fn mixed_advice(alloc: Global, name: &str, lower: &str) -> Result<Advice, AllocError> {
    Ok(Advice {
        text: format!(in alloc;
            "`{name}` is a name, since a keyword is in lower case or in upper case throughout. Write `{lower}` if the \
             keyword is meant."
        )?,
    })
}

/// About a word to which a keyword is near.
fn near_advice(
    alloc: Global,
    around: &Around<'_>,
    name: &str,
    lower: &str,
) -> Result<Option<Advice>, AllocError> {
    let mut nearest = Nearest::to(lower);
    for keyword in &KEYWORDS {
        nearest.try_name(alloc, *keyword)?;
    }
    match nearest.found {
        Some(near) if !is_sort(Some(name)) && !is_of_list(around, near) => Ok(Some(Advice {
            text: format!(in alloc; "`{name}` is no keyword. Is `{near}` meant?")?,
        })),
        _ => Ok(None),
    }
}

/// Whether a name belongs to the list before it, though a keyword is near to it: that isn't one that stands alone.
fn is_of_list(around: &Around<'_>, near: &str) -> bool {
    let stands_alone = near.starts_with("end") || near == "start" || near == "stop";
    continues_list(around) && !stands_alone
}

/// The keywords with three letters and more. Of two that are equally near, the first is told.
static KEYWORDS: [&str; 52] = [
    "active",
    "and",
    "block",
    "channel",
    "comment",
    "connect",
    "connection",
    "create",
    "dcl",
    "decision",
    "else",
    "endblock",
    "endchannel",
    "endconnection",
    "enddecision",
    "endprocess",
    "endstate",
    "endsystem",
    "env",
    "fpar",
    "from",
    "input",
    "join",
    "mod",
    "nextstate",
    "nodelay",
    "not",
    "now",
    "offspring",
    "output",
    "parent",
    "priority",
    "process",
    "provided",
    "rem",
    "reset",
    "save",
    "self",
    "sender",
    "set",
    "signal",
    "signallist",
    "signalset",
    "state",
    "start",
    "stop",
    "synonym",
    "system",
    "task",
    "timer",
    "with",
    "xor",
];
