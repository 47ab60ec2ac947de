//! Advice on a name that is no sort.

use explain_syntax::{Advice, Nearest, lowered};
use std::alloc::{AllocError, Global};

static SORTS: [&str; 6] = ["Integer", "Natural", "Boolean", "Pid", "Time", "Duration"];

/// Sorts of SDL that this language leaves out, and some of other languages that stand for none here.
static LEFT_OUT: [&str; 16] = [
    "array",
    "bag",
    "bit",
    "bitstring",
    "char",
    "character",
    "charstring",
    "double",
    "float",
    "octet",
    "octetstring",
    "powerset",
    "real",
    "string",
    "struct",
    "vector",
];

/// Sorts of other languages, with those that stand for them.
static FOREIGN: [(&str, &str); 17] = [
    ("int", "Integer"),
    ("long", "Integer"),
    ("short", "Integer"),
    ("i32", "Integer"),
    ("i64", "Integer"),
    ("isize", "Integer"),
    ("number", "Integer"),
    ("unsigned", "Natural"),
    ("uint", "Natural"),
    ("u8", "Natural"),
    ("u16", "Natural"),
    ("u32", "Natural"),
    ("u64", "Natural"),
    ("usize", "Natural"),
    ("nat", "Natural"),
    ("bool", "Boolean"),
    ("process", "Pid"),
];

/// Gives the advice on a word that stands for no sort.
pub fn sort_advice(alloc: Global, word: &str) -> Result<Advice, AllocError> {
    let lower = lowered(alloc, word)?;
    if is_among(&LEFT_OUT, lower.as_str()) {
        return Advice::about(
            alloc,
            word,
            "is no sort here, and none stands for it. Choose one of Integer, \
            Natural, Boolean, Pid, Time and Duration.",
        );
    }
    if lower.as_str() == "timer" {
        return Advice::alone(alloc, TIMER);
    }
    match near_sort(alloc, lower.as_str())? {
        Some(near) => Ok(Advice {
            text: format!(in alloc; "`{word}` is no sort. Is `{near}` meant? Capitals count.")?,
        }),
        None => Advice::about(
            alloc,
            word,
            "is no sort. The sorts are Integer, Natural, Boolean, Pid, Time and \
            Duration, no others can be defined, and a sort follows its names: `dcl n Integer;`.",
        ),
    }
}

const TIMER: &str =
    "A timer is no variable. It has a definition of its own, `timer t := 5;`, and is set by `set(t);` or `set(now + 5, \
     t);`.";

fn is_among(words: &[&'static str], word: &str) -> bool {
    words.iter().any(|other| *other == word)
}

/// The sort that a word in lower case is near to.
fn near_sort(alloc: Global, lower: &str) -> Result<Option<&'static str>, AllocError> {
    if let Some(sort) = foreign_sort(lower) {
        return Ok(Some(sort));
    }
    let mut nearest = Nearest::to(lower);
    for sort in &SORTS {
        nearest.try_name(alloc, *sort)?;
    }
    Ok(nearest.found)
}

/// The sort that stands for one of another language.
fn foreign_sort(lower: &str) -> Option<&'static str> {
    for (foreign, sort) in &FOREIGN {
        if *foreign == lower {
            return Some(*sort);
        }
    }
    None
}
