//! Sentences about a name of another kind than its place wants.

use crate::advice::names::Names;
use crate::site::Kind;
use build_definitions::SignalKind;
use build_expressions::ValueEntry;

/// Gives the sentence about a name that stands for something of a kind that is often taken for the one that is wanted.
pub fn other_kind_sentence(names: &Names<'_, '_>, word: &str, kind: Kind) -> Option<&'static str> {
    if is_timer(names, word) {
        return timer_sentence(kind);
    }
    if names.value(word).is_none() && names.process(word).is_some() {
        return process_sentence(kind);
    }
    if names.value(word).is_none() && is_variable_anywhere(names, word) {
        return variable_sentence(kind);
    }
    None
}

fn is_timer(names: &Names<'_, '_>, word: &str) -> bool {
    match names.signal(word) {
        Some(entry) => matches!(entry.kind, SignalKind::Timer { .. }),
        None => false,
    }
}

fn timer_sentence(kind: Kind) -> Option<&'static str> {
    match kind {
        Kind::Signal => Some(
            "is a timer, and no output sends it: it comes by itself when it is due. Set it: `set(now + 5, t);`.",
        ),
        Kind::Variable => Some(
            "is a timer, which no task sets. It is set by `set(now + 5, t);`, and stopped by `reset(t);`.",
        ),
        Kind::Value => Some(
            "is a timer, and has no value. In `set` the time comes first: `set(now + 5, t);`. `active(t)` asks whether \
             a timer is set, and `input t;` takes its signal.",
        ),
        _ => None,
    }
}

fn process_sentence(kind: Kind) -> Option<&'static str> {
    match kind {
        Kind::Value => Some(
            "is a process, and no value: it may have many instances. A Pid is one of them: keep it in a variable, \
             `task p := sender;` or `task p := offspring;`, and compare with that.",
        ),
        Kind::Variable => Some(
            "is a process, and a task gives a variable its value. Define one by `dcl`.",
        ),
        _ => None,
    }
}

/// Whether a variable or a parameter of some process has a name.
fn is_variable_anywhere(names: &Names<'_, '_>, word: &str) -> bool {
    names.tables.values.iter().any(|value| value.name.text.as_str() == word
        && is_variable(value.entry))
}

fn is_variable(entry: ValueEntry) -> bool {
    matches!(entry, ValueEntry::Variable { .. })
}

fn variable_sentence(kind: Kind) -> Option<&'static str> {
    match kind {
        Kind::Constant | Kind::Answer => Some(
            "is a variable of a process, and a constant has to stand here: it is known before any instance is made. \
             Name a synonym, or write the number.",
        ),
        Kind::Value | Kind::Variable => Some(
            "is a variable of another process, which alone sees it. Send its value by a signal, and take that into a \
             variable of this process.",
        ),
        _ => None,
    }
}
