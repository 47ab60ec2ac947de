//! Advice on a name that stands for nothing that is wanted.

mod foreign;
mod other_kind;
mod sort;

use crate::advice::names::Names;
use crate::advice::unknown::foreign::foreign_sentence;
use crate::advice::unknown::other_kind::other_kind_sentence;
use crate::advice::unknown::sort::sort_advice;
use crate::site::Kind;
use build_definitions::{Agent, SignalKind};
use build_expressions::ValueEntry;
use explain_syntax::{Advice, Nearest, lowered};
use std::alloc::{AllocError, Global};

/// Gives the advice on a name that stands for nothing of a kind.
pub fn unknown_advice(
    alloc: Global,
    names: &Names<'_, '_>,
    word: &str,
    kind: Kind,
) -> Result<Advice, AllocError> {
    if kind == Kind::Sort {
        return sort_advice(alloc, word);
    }
    if names.has_list(word) {
        if let Some(advice) = list_advice(alloc, word, kind)? {
            return Ok(advice);
        }
    }
    if let Some(sentence) = other_kind_sentence(names, word, kind) {
        return Advice::about(alloc, word, sentence);
    }
    let wanted = kind_text(kind);
    if let Some(meaning) = names.meaning(word) {
        return Ok(Advice {
            text: format!(in alloc;
                "`{word}` is {meaning}, and a {wanted} has to stand here. Name or define one."
            )?,
        });
    }
    nameless_advice(alloc, names, word, kind)
}

/// Gives the advice on a name that stands for nothing here.
fn nameless_advice(
    alloc: Global,
    names: &Names<'_, '_>,
    word: &str,
    kind: Kind,
) -> Result<Advice, AllocError> {
    let wanted = kind_text(kind);
    let text = match nearest_name(alloc, names, word, kind)? {
        Some(near) if near == word => format!(in alloc;
            "`{word}` is the {wanted} of another scope. A channel ends at what its own scope defines, or at `env`; and \
             a `connect` names channels of the system before `and`, and those of its block after it."
        )?,
        Some(near) => format!(in alloc;
            "`{word}` is no {wanted} in this scope or around it. Is `{near}` meant? Capitals count."
        )?,
        None => return unnamed_advice(alloc, word, kind),
    };
    Ok(Advice { text })
}

/// Gives the advice on a word that is near to no name.
fn unnamed_advice(alloc: Global, word: &str, kind: Kind) -> Result<Advice, AllocError> {
    let lower = lowered(alloc, word)?;
    if let Some(sentence) = foreign_sentence(lower.as_str(), kind) {
        return Advice::about(alloc, word, sentence);
    }
    let wanted = kind_text(kind);
    Ok(Advice {
        text: format!(in alloc;
            "`{word}` is no {wanted} in this scope or around it. Define it, or mend the spelling; capitals count."
        )?,
    })
}

/// Gives the advice on a signal list where a signal is wanted.
fn list_advice(alloc: Global, word: &str, kind: Kind) -> Result<Option<Advice>, AllocError> {
    let text = match kind {
        Kind::ListedSignal | Kind::Saved => format!(in alloc;
            "`{word}` is a signal list, and has parentheses among signals: write `({word})`."
        )?,
        Kind::Stimulus => format!(in alloc;
            "`{word}` is a signal list, and an input takes none. Name its signals, `input a, b;`, or take all others: \
             `input *;`."
        )?,
        Kind::Signal => format!(in alloc;
            "`{word}` is a signal list, and an output sends a signal. Name the one that is sent."
        )?,
        _ => return Ok(None),
    };
    Ok(Some(Advice { text }))
}

fn kind_text(kind: Kind) -> &'static str {
    match kind {
        Kind::Sort => "sort",
        Kind::Signal | Kind::ListedSignal => "signal",
        Kind::Timer => "timer",
        Kind::Stimulus | Kind::Saved => "signal or timer",
        Kind::SignalList => "signal list",
        Kind::Channel => "channel",
        Kind::Agent => "block or process",
        Kind::Process => "process",
        Kind::Variable => "variable",
        Kind::Value => "variable or synonym",
        Kind::Constant | Kind::Answer => "synonym",
        Kind::Destination => "variable, synonym or process",
    }
}

/// The nearest name of a kind that is seen.
pub fn nearest_name<'t>(
    alloc: Global,
    names: &Names<'_, 't>,
    word: &str,
    kind: Kind,
) -> Result<Option<&'t str>, AllocError> {
    let lower = lowered(alloc, word)?;
    let mut nearest = Nearest::to(lower.as_str());
    try_signals(alloc, names, kind, &mut nearest)?;
    try_values(alloc, names, kind, &mut nearest)?;
    try_agents(alloc, names, kind, &mut nearest)?;
    try_lists(alloc, names, kind, &mut nearest)?;
    try_channels(alloc, names, kind, &mut nearest)?;
    Ok(nearest.found)
}

fn try_signals<'t>(
    alloc: Global,
    names: &Names<'_, 't>,
    kind: Kind,
    nearest: &mut Nearest<'_, 't>,
) -> Result<(), AllocError> {
    for entry in &names.tables.signals {
        let is_wanted = match entry.kind {
            SignalKind::Signal => is_of_signal(kind),
            SignalKind::Timer { .. } => matches!(kind, Kind::Timer | Kind::Stimulus | Kind::Saved),
        };
        if is_wanted && names.sees(entry.scope) {
            nearest.try_name(alloc, entry.name.text.as_str())?;
        }
    }
    Ok(())
}

fn is_of_signal(kind: Kind) -> bool {
    matches!(
        kind,
        Kind::Signal | Kind::ListedSignal | Kind::Stimulus | Kind::Saved
    )
}

fn try_values<'t>(
    alloc: Global,
    names: &Names<'_, 't>,
    kind: Kind,
    nearest: &mut Nearest<'_, 't>,
) -> Result<(), AllocError> {
    for value in &names.tables.values {
        let is_wanted = match value.entry {
            ValueEntry::Variable { .. } => {
                matches!(kind, Kind::Variable | Kind::Value | Kind::Destination)
            }
            ValueEntry::Synonym { .. } => {
                matches!(
                    kind,
                    Kind::Value | Kind::Constant | Kind::Answer | Kind::Destination
                )
            }
        };
        if is_wanted && names.sees(value.scope) {
            nearest.try_name(alloc, value.name.text.as_str())?;
        }
    }
    Ok(())
}

fn try_agents<'t>(
    alloc: Global,
    names: &Names<'_, 't>,
    kind: Kind,
    nearest: &mut Nearest<'_, 't>,
) -> Result<(), AllocError> {
    for agent in &names.tables.agents {
        let is_wanted = match agent.agent {
            Agent::Process(_) => matches!(kind, Kind::Process | Kind::Agent | Kind::Destination),
            Agent::Block(_) => kind == Kind::Agent,
        };
        if is_wanted && names.sees(agent.scope) {
            nearest.try_name(alloc, agent.name.text.as_str())?;
        }
    }
    Ok(())
}

fn try_lists<'t>(
    alloc: Global,
    names: &Names<'_, 't>,
    kind: Kind,
    nearest: &mut Nearest<'_, 't>,
) -> Result<(), AllocError> {
    for list in &names.tables.lists {
        if kind == Kind::SignalList && names.sees(list.scope) {
            nearest.try_name(alloc, list.definition.name.text.as_str())?;
        }
    }
    Ok(())
}

fn try_channels<'t>(
    alloc: Global,
    names: &Names<'_, 't>,
    kind: Kind,
    nearest: &mut Nearest<'_, 't>,
) -> Result<(), AllocError> {
    for channel in &names.tables.channels {
        if kind == Kind::Channel && names.sees(channel.scope) {
            nearest.try_name(alloc, channel.definition.name.text.as_str())?;
        }
    }
    Ok(())
}
