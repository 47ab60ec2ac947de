//! Advice on a line of a script, in the words of what the specification defines.

mod values;

use crate::advice::names::Names;
use crate::advice::script::values::values_text;
use crate::advice::unknown::nearest_name;
use crate::site::{Kind, What};
use crate::sites::sites_of;
use build_definitions::{Definitions, SignalEntry, SignalKind};
use build_names::{Faults, ScopeId};
use explain_syntax::{Advice, Nearest, lowered};
use sdl_tree::{Definition, SystemDefinition, Tree};
use std::alloc::{AllocError, Global};

/// What a line of a script sends: a signal, and the process after `to`, if one is there.
#[derive(Clone, Copy)]
pub struct Sent<'l> {
    pub signal: &'l str,
    pub receiver: Option<&'l str>,
}

/// Whether a system defines a signal in its own scope.
pub fn has_signal(tree: &Tree, name: &str) -> bool {
    for definition in &tree.definitions {
        if let SystemDefinition::Shared(Definition::Signals(signals)) = definition {
            if signals
                .iter()
                .any(|signal| signal.name.text.as_str() == name)
            {
                return true;
            }
        }
    }
    false
}

/// Gives the advice on a signal that the environment can't send.
pub fn unsent_advice(alloc: Global, tree: &Tree, sent: Sent<'_>) -> Result<Advice, AllocError> {
    let mut faults = Faults::new();
    let tables = Definitions::of(alloc, tree, &mut faults)?;
    let names = Names::seen_in(alloc, &tables, ScopeId::System)?;
    match sent.receiver {
        _ if names.signal(sent.signal).is_none() => unknown_advice(alloc, &names, sent.signal),
        Some(receiver) => receiver_advice(alloc, &tables, receiver),
        None => unled_advice(alloc, tree, &tables, sent.signal),
    }
}

/// Of a signal that no channel leads from the environment to a process.
fn unled_advice<'t>(
    alloc: Global,
    tree: &'t Tree,
    tables: &Definitions<'t>,
    word: &str,
) -> Result<Advice, AllocError> {
    if only_leaves(alloc, tree, tables, word)? {
        Advice::about(alloc, word, OUTWARD)
    } else {
        Advice::about(alloc, word, NO_WAY)
    }
}

/// Whether outputs send a signal that no input and no save names.
fn only_leaves<'t>(
    alloc: Global,
    tree: &'t Tree,
    tables: &Definitions<'t>,
    signal: &str,
) -> Result<bool, AllocError> {
    let sites = sites_of(alloc, tree, tables)?;
    let is_taken = sites.iter().any(|site| names_signal(site.what, signal) && !is_sent(site.what));
    let is_output = sites.iter().any(|site| names_signal(site.what, signal) && is_sent(site.what));
    Ok(is_output && !is_taken)
}

/// Whether a signal is named in an input, a save or an output.
fn names_signal(what: What<'_>, signal: &str) -> bool {
    match what {
        What::Name(name, Kind::Stimulus | Kind::Saved | Kind::Signal) => name.text.as_str()
            == signal,
        _ => false,
    }
}

/// Whether what is named is in an output.
fn is_sent(what: What<'_>) -> bool {
    matches!(what, What::Name(_, Kind::Signal))
}

const OUTWARD: &str =
    "goes from the system to the environment, and no input takes it. A line of a script sends a signal to the \
     system: one that an input takes.";

const NO_WAY: &str =
    "reaches no process: no channel carries it from `env`, and where there are no channels, no process names it. Name \
     it after `with` in a channel from `env`, or name a process: `0 a to P`.";

/// Of a name that is no signal of the system.
fn unknown_advice(alloc: Global, names: &Names<'_, '_>, word: &str) -> Result<Advice, AllocError> {
    if let Some(sentence) = other_sentence(names, word) {
        return Advice::about(alloc, word, sentence);
    }
    let text = match nearest_name(alloc, names, word, Kind::Signal)? {
        Some(near) => format!(in alloc;
            "`{word}` is no signal of the system. Is `{near}` meant? Capitals count."
        )?,
        None => format!(in alloc;
            "`{word}` is no signal of the system. Define it there: `signal {word};`."
        )?,
    };
    Ok(Advice { text })
}

/// Gives the sentence about a name that stands for something else than a signal of the system.
fn other_sentence(names: &Names<'_, '_>, word: &str) -> Option<&'static str> {
    if names.process(word).is_some() {
        return Some(
            "is a process. A line names a signal, and may name a process after it: `0 a to P`.",
        );
    }
    if names.has_list(word) {
        return Some("is a signal list. A line sends one signal.");
    }
    match signal_anywhere(names.tables, word)?.kind {
        SignalKind::Signal => Some(
            "is a signal of a block or a process, and the environment sends those that the system itself defines. Move \
             its definition there.",
        ),
        SignalKind::Timer { .. } => Some("is a timer, and the environment sends signals alone."),
    }
}

/// The signal or timer of a name, in any scope.
fn signal_anywhere<'d, 't>(tables: &'d Definitions<'t>, name: &str) -> Option<&'d SignalEntry<'t>> {
    for signal in &tables.signals {
        if signal.name.text.as_str() == name {
            return Some(signal);
        }
    }
    None
}

/// Of a name after `to` that no process has.
fn receiver_advice(
    alloc: Global,
    tables: &Definitions<'_>,
    word: &str,
) -> Result<Advice, AllocError> {
    let lower = lowered(alloc, word)?;
    let mut nearest = Nearest::to(lower.as_str());
    for process in &tables.processes {
        nearest.try_name(alloc, process.definition.name.text.as_str())?;
    }
    match nearest.found {
        Some(near) => Ok(Advice {
            text: format!(in alloc; "`{word}` is no process. Is `{near}` meant? Capitals count.")?,
        }),
        None => Advice::about(
            alloc,
            word,
            "is no process. After `to` is the name of one, or the number of an instance: `0 a to #2`.",
        ),
    }
}

/// Gives the advice on a signal of a script that has other values than its definition says. None if no signal of the
/// system has its name.
pub fn sent_values_advice(
    alloc: Global,
    tree: &Tree,
    signal: &str,
) -> Result<Option<Advice>, AllocError> {
    let mut faults = Faults::new();
    let tables = Definitions::of(alloc, tree, &mut faults)?;
    let names = Names::seen_in(alloc, &tables, ScopeId::System)?;
    match names.signal(signal) {
        Some(entry) => Ok(Some(Advice {
            text: values_text(alloc, entry)?,
        })),
        None => Ok(None),
    }
}
