//! The first mention of a signal that a state mentions twice.

use build_definitions::Definitions;
use build_names::{Faults, Token, states_of};
use sdl_lex::Place;
use sdl_tree::{
    BodyPart, Input, InputPart, Inputs, Mark, Name, ProcessDefinition, SavePart, Saved,
    SignalListItem, StatePart, States, Stimulus, Tree,
};
use std::alloc::{AllocError, Global};

/// A word in a stimulus of a state part that names what the stimulus is about: a signal, a signal list or `*`.
#[derive(Clone, Copy)]
struct Mention<'t> {
    part: &'t StatePart,
    word: Token<'t>,
}

/// Where the word of a mention is mentioned first in a state of which that speaks, too. None if no mention is at its
/// place. A signal that is mentioned in a list is not found.
pub fn first_mention(alloc: Global, tree: &Tree, told: &Name) -> Result<Option<Place>, AllocError> {
    let mut faults = Faults::new();
    let tables = Definitions::of(alloc, tree, &mut faults)?;
    for process in &tables.processes {
        let mentions = mentions_in(alloc, process.definition)?;
        if let Some(again) = mention_at(&mentions, told.place) {
            let states = states_of(alloc, process.definition)?;
            return Ok(first_of(&mentions, &states, again));
        }
    }
    Ok(None)
}

/// The first of these mentions that has the word of this one, and a state with it.
fn first_of(mentions: &[Mention<'_>], states: &[&Name], again: Mention<'_>) -> Option<Place> {
    for mention in mentions {
        if mention.word.text == again.word.text && share(states, mention.part, again.part) {
            return Some(mention.word.place);
        }
    }
    None
}

/// Whether two state parts belong to one of these states.
fn share(states: &[&Name], one: &StatePart, other: &StatePart) -> bool {
    for state in states {
        let name = state.text.as_str();
        if belongs(one, name) && belongs(other, name) {
            return true;
        }
    }
    false
}

/// Whether a state part belongs to the state of this name.
fn belongs(part: &StatePart, name: &str) -> bool {
    match &part.states {
        States::Named(names) => is_among(names, name),
        States::All { except, .. } => !is_among(except, name),
    }
}

fn is_among(names: &[Name], text: &str) -> bool {
    names.iter().any(|name| name.text.as_str() == text)
}

/// The mention at a place.
fn mention_at<'t>(mentions: &[Mention<'t>], place: Place) -> Option<Mention<'t>> {
    for mention in mentions {
        if mention.word.place == place {
            return Some(*mention);
        }
    }
    None
}

/// The mentions of a process, in the order of the text.
fn mentions_in<'t>(
    alloc: Global,
    process: &'t ProcessDefinition,
) -> Result<Vec<Mention<'t>>, AllocError> {
    let mut found = Vec::new(alloc);
    for part in &process.body {
        if let BodyPart::State(part) = part {
            add_part(&mut found, part)?;
        }
    }
    Ok(found)
}

fn add_part<'t>(found: &mut Vec<Mention<'t>>, part: &'t StatePart) -> Result<(), AllocError> {
    for stimulus in &part.stimuli {
        match stimulus {
            Stimulus::Input(input) => add_input(found, part, input)?,
            Stimulus::Priority(input) => add_inputs(found, part, &input.inputs)?,
            Stimulus::Save(save) => add_save(found, part, save)?,
            Stimulus::Continuous(_) => {}
        }
    }
    Ok(())
}

fn add_input<'t>(
    found: &mut Vec<Mention<'t>>,
    part: &'t StatePart,
    input: &'t InputPart,
) -> Result<(), AllocError> {
    match &input.inputs {
        Inputs::Listed(inputs) => add_inputs(found, part, inputs),
        Inputs::All(asterisk) => add(found, part, Token::of_mark(Mark::Asterisk, *asterisk)),
    }
}

fn add_inputs<'t>(
    found: &mut Vec<Mention<'t>>,
    part: &'t StatePart,
    inputs: &'t [Input],
) -> Result<(), AllocError> {
    for input in inputs {
        add(found, part, Token::of_name(&input.signal))?;
    }
    Ok(())
}

fn add_save<'t>(
    found: &mut Vec<Mention<'t>>,
    part: &'t StatePart,
    save: &'t SavePart,
) -> Result<(), AllocError> {
    match &save.saved {
        Saved::Listed(items) => add_items(found, part, items),
        Saved::All(asterisk) => add(found, part, Token::of_mark(Mark::Asterisk, *asterisk)),
    }
}

fn add_items<'t>(
    found: &mut Vec<Mention<'t>>,
    part: &'t StatePart,
    items: &'t [SignalListItem],
) -> Result<(), AllocError> {
    for item in items {
        match item {
            SignalListItem::Signal(name) | SignalListItem::List(name) => {
                add(found, part, Token::of_name(name))?;
            }
        }
    }
    Ok(())
}

fn add<'t>(
    found: &mut Vec<Mention<'t>>,
    part: &'t StatePart,
    word: Token<'t>,
) -> Result<(), AllocError> {
    found.push(Mention { part, word })?;
    Ok(())
}
