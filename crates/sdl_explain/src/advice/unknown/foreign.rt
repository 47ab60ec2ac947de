//! Sentences about words of other languages that stand for nothing here.

use crate::site::Kind;

/// Gives the sentence about a word in lower case where something of a kind is wanted.
pub fn foreign_sentence(word: &str, kind: Kind) -> Option<&'static str> {
    match kind {
        Kind::Value | Kind::Constant | Kind::Answer | Kind::Destination => value_sentence(word),
        Kind::Signal | Kind::ListedSignal | Kind::Stimulus | Kind::Saved => signal_sentence(
            word, kind,
        ),
        _ => None,
    }
}

fn value_sentence(word: &str) -> Option<&'static str> {
    match word {
        "nil" | "none" | "nobody" | "nullptr" | "undefined" => Some(
            "stands for nothing. The Pid of nobody is `null`.",
        ),
        "external" => Some(
            "stands for nothing: no value comes from outside. Write the value itself: `synonym k Integer = 5;`.",
        ),
        "yes" | "on" | "tt" => Some("stands for nothing. The Booleans are `true` and `false`."),
        "no" | "off" | "ff" => Some("stands for nothing. The Booleans are `true` and `false`."),
        "me" | "myself" => Some("stands for nothing. The Pid of the instance itself is `self`."),
        "time" | "clock" | "today" => Some("stands for nothing. The time of the clock is `now`."),
        "environment" | "world" => Some(
            "stands for nothing. A signal that no process gets goes to the environment, if a path leads there: leave \
             `to` away.",
        ),
        _ => None,
    }
}

fn signal_sentence(word: &str, kind: Kind) -> Option<&'static str> {
    match (word, kind) {
        ("all" | "others" | "everything", Kind::Stimulus | Kind::Saved) => Some(
            "stands for nothing. `input *;` takes all signals that the state doesn't name, and `save *;` keeps them.",
        ),
        ("all" | "any" | "everything", _) => Some(
            "stands for nothing. Name each signal, or a signal list in parentheses: `with a, b, (L);`.",
        ),
        ("timeout" | "timer" | "expired" | "tick", Kind::Stimulus) => Some(
            "stands for nothing. A timer comes as a signal of its own name: `timer t;`, and there `input t;`.",
        ),
        _ => None,
    }
}
