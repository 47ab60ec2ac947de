//! Advice on a state or a label to which nothing leads.

use build_definitions::Definitions;
use build_names::Rule;
use explain_syntax::{Advice, Nearest, lowered};
use sdl_lex::Place;
use sdl_system::ProcessId;
use sdl_tree::Name;
use std::alloc::{AllocError, Global};

/// Gives the advice on a name that is no state or no label of its process, if another one is near to it.
pub fn target_advice(
    alloc: Global,
    tables: &Definitions<'_>,
    rule: Rule,
    word: &Name,
) -> Result<Option<Advice>, AllocError> {
    let Some(process) = process_around(tables, word.place) else {
        return Ok(None);
    };
    let text = word.text.as_str();
    let lower = lowered(alloc, text)?;
    let mut nearest = Nearest::to(lower.as_str());
    let kind = if rule == Rule::NoState {
        try_states(alloc, tables, process, &mut nearest)?;
        "state"
    } else {
        try_labels(alloc, tables, process, &mut nearest)?;
        "label"
    };
    if let Some(near) = nearest.found {
        return Ok(Some(Advice {
            text: format!(in alloc;
                "`{text}` is no {kind} of this process. Is `{near}` meant? Capitals count."
            )?,
        }));
    }
    match other_sentence(tables, process, rule, text) {
        Some(sentence) => Ok(Some(Advice::about(alloc, text, sentence)?)),
        None => Ok(None),
    }
}

/// Gives the sentence about a label in a `nextstate`, or a state in a `join`.
fn other_sentence(
    tables: &Definitions<'_>,
    process: ProcessId,
    rule: Rule,
    word: &str,
) -> Option<&'static str> {
    if rule == Rule::NoState && has_label(tables, process, word) {
        Some(
            "is a label, and a state follows `nextstate`. To go on at a label write `join` and its name.",
        )
    } else if rule == Rule::NoLabel && has_state(tables, process, word) {
        Some(
            "is a state, and a label follows `join`. To go into a state write `nextstate` and its name.",
        )
    } else {
        None
    }
}

fn has_label(tables: &Definitions<'_>, process: ProcessId, word: &str) -> bool {
    tables.labels.iter().any(|label| label.process == process && label.name.text.as_str() == word)
}

fn has_state(tables: &Definitions<'_>, process: ProcessId, word: &str) -> bool {
    tables.states.iter().any(|state| state.process == process && state.name.text.as_str() == word)
}

/// The process around a place: the last one that begins before it.
fn process_around(tables: &Definitions<'_>, place: Place) -> Option<ProcessId> {
    let mut around = None;
    let mut number = 0u32;
    for process in &tables.processes {
        if process.definition.word.place < place {
            around = Some(ProcessId(number));
        }
        number = number.saturating_add(1);
    }
    around
}

fn try_states<'t>(
    alloc: Global,
    tables: &Definitions<'t>,
    process: ProcessId,
    nearest: &mut Nearest<'_, 't>,
) -> Result<(), AllocError> {
    for state in &tables.states {
        if state.process == process {
            nearest.try_name(alloc, state.name.text.as_str())?;
        }
    }
    Ok(())
}

fn try_labels<'t>(
    alloc: Global,
    tables: &Definitions<'t>,
    process: ProcessId,
    nearest: &mut Nearest<'_, 't>,
) -> Result<(), AllocError> {
    for label in &tables.labels {
        if label.process == process {
            nearest.try_name(alloc, label.name.text.as_str())?;
        }
    }
    Ok(())
}
