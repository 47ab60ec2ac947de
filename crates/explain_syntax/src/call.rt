//! Sentences about a parenthesis after a word that takes none.

use crate::lines::{Around, mark_of, name_of};
use sdl_tree::Mark;

/// Gives the sentence about a parenthesis that opens after a word, where a semicolon has to be.
pub fn call_sentence(around: &Around<'_>) -> &'static str {
    match around.leading {
        Some(Mark::NextState | Mark::State) => {
            "A state has no values of its own. Give them to variables by a task, and let the state read those."
        }
        Some(Mark::Dcl | Mark::Fpar | Mark::Synonym) => {
            "A sort is a name alone: there are no arrays, ranges or lengths."
        }
        Some(Mark::Block | Mark::System | Mark::Channel) => {
            "Nothing is in parentheses here: processes alone have numbers of instances, `process P(2);`."
        }
        Some(Mark::Timer) =>
            "The sorts of a timer's values come before `:=`: `timer t(Integer) := 5;`.",
        Some(Mark::With | Mark::SignalList | Mark::SignalSet) => {
            "Signals are named alone here, and have their sorts where they are defined: `with a, b;`."
        }
        Some(Mark::Stop | Mark::Join | Mark::Start) => "Nothing is in parentheses here.",
        Some(Mark::Decision) => QUESTION,
        Some(Mark::Output) if mark_of(around.earlier) == Some(Mark::To) => {
            "`to` takes a process, or a Pid: no instance has an index. Keep its Pid in a variable, `task p := \
             offspring;`, and send `to p`."
        }
        Some(Mark::Save) => "A save has no variables: it leaves the signal where it is.",
        _ => match name_of(around.before) {
            Some(name) => function_sentence(name),
            None => "Nothing can be in parentheses after this.",
        },
    }
}

const QUESTION: &str =
    "A `;` is missing here, after the question of the decision. A function or an array can't be asked: there are none.";

/// Gives the sentence about a name that would be a function or an array.
fn function_sentence(name: &str) -> &'static str {
    for (function, sentence) in &FUNCTIONS {
        if *function == name {
            return *sentence;
        }
    }
    "No values follow a name here: there are no functions and no arrays. A decision, and a variable for each place, \
     stand for them."
}

/// Functions of the standard, and of other languages.
static FUNCTIONS: [(&str, &str); 10] = [
    (
        "abs",
        "There are no functions. Ask by a decision whether the number is less than 0, and take `- n` then.",
    ),
    ("num", NUMBER),
    ("fix", NUMBER),
    ("float", NUMBER),
    ("int", NUMBER),
    ("random", CHANCE),
    ("rand", CHANCE),
    ("max", GREATER),
    ("min", GREATER),
    (
        "length",
        "There are no functions, and no strings whose length one could ask for. Count in a variable.",
    ),
];

const NUMBER: &str =
    "No function makes a value of another sort. A Time less another one is a Duration, and a number as `5` fits \
     Integer, Time and Duration.";

const CHANCE: &str =
    "Nothing happens by chance. Let the environment send the number: `0 a(3)` in the script.";

const GREATER: &str = "There are no functions. Ask by a decision which of the two is greater.";
