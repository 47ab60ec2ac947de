//! What begins the transitions of a process.

ghost use Rattle.std.specs.Prelude.{◌≡◌, ◌++◌, ◌∷◌, [], false, flat_map, map, option_map, IfOk, OnOk};
ghost use Rattle.build_flow.specs.Beginnings.{beginning_of, beginnings, part_beginnings, stimulus_beginnings};
ghost use Rattle.build_flow.specs.Listed.{beginnings_listed};
ghost use Rattle.build_names.specs.Faults.{token_word};
ghost use Rattle.sdl_tree.specs.Views.{body_part_value, name_value, process_value, stimulus_value, transition_value};

use build_names::Token;
use sdl_tree::{BodyPart, Mark, Name, ProcessDefinition, Stimulus, Transition};
use std::alloc::{AllocError, Global};

/// The start, a stimulus or a connection: its first word, its label, where it is a connection, and its transition.
#[derive(Clone, Copy)]
pub struct Beginning<'t> {
    pub is_start: bool,
    pub word: Token<'t>,
    pub label: Option<&'t Name>,
    pub transition: &'t Transition,
}

/// The start, and the stimuli and connections behind it, in the order of the text.
pub fn beginnings_of<'t>(
    alloc: Global,
    process: &'t ProcessDefinition,
) -> Result<Vec<Beginning<'t>>, AllocError>
    ensures { IfOk result (λ list. beginnings_listed list.items ≡ beginnings (process_value process.now)) }
{
    let mut list = Vec::new(alloc);
    list.push(Beginning {
        is_start: true,
        word: Token::of_mark(Mark::Start, process.start.word),
        label: None,
        transition: &process.start.transition,
    })?;
    add_parts(&mut list, &process.body)?;
    Ok(list)
}

fn add_parts<'t>(list: &mut Vec<Beginning<'t>>, body: &'t [BodyPart]) -> Result<(), AllocError>
    ensures { OnOk result (beginnings_listed list.new.items ≡
        beginnings_listed list.old.items ++ flat_map part_beginnings (map body_part_value body.now)) }
{
    for part in body {
        add_part(list, part)?;
    }
    Ok(())
}

fn add_part<'t>(list: &mut Vec<Beginning<'t>>, part: &'t BodyPart) -> Result<(), AllocError>
    ensures { OnOk result (beginnings_listed list.new.items ≡
        beginnings_listed list.old.items ++ part_beginnings (body_part_value part.now)) }
{
    match part {
        BodyPart::State(part) => add_stimuli(list, &part.stimuli),
        BodyPart::FreeAction(connection) => {
            let word = Token::of_mark(Mark::Connection, connection.word);
            add(list, word, Some(&connection.label), &connection.transition)
        }
    }
}

fn add_stimuli<'t>(list: &mut Vec<Beginning<'t>>, stimuli: &'t [Stimulus]) -> Result<(), AllocError>
    ensures { OnOk result (beginnings_listed list.new.items ≡
        beginnings_listed list.old.items ++ flat_map stimulus_beginnings (map stimulus_value stimuli.now)) }
{
    for stimulus in stimuli {
        add_stimulus(list, stimulus)?;
    }
    Ok(())
}

fn add_stimulus<'t>(list: &mut Vec<Beginning<'t>>, stimulus: &'t Stimulus) -> Result<(), AllocError>
    ensures { OnOk result (beginnings_listed list.new.items ≡
        beginnings_listed list.old.items ++ stimulus_beginnings (stimulus_value stimulus.now)) }
{
    match stimulus {
        Stimulus::Input(part) => {
            let word = Token::of_mark(Mark::Input, part.word);
            add(list, word, None, &part.transition)
        }
        Stimulus::Priority(part) => {
            let word = Token::of_mark(Mark::Priority, part.word);
            add(list, word, None, &part.transition)
        }
        Stimulus::Save(_) => Ok(()),
        Stimulus::Continuous(part) => {
            let word = Token::of_mark(Mark::Provided, part.word);
            add(list, word, None, &part.transition)
        }
    }
}

/// Adds a stimulus or a connection.
fn add<'t>(
    list: &mut Vec<Beginning<'t>>,
    word: Token<'t>,
    label: Option<&'t Name>,
    transition: &'t Transition,
) -> Result<(), AllocError>
    ensures { OnOk result (beginnings_listed list.new.items ≡ beginnings_listed list.old.items
        ++ beginning_of false (token_word word.entry) (option_map (λ name. name_value name.now) label.entry)
        (transition_value transition.now) ∷ []) }
{
    list.push(Beginning {
        is_start: false,
        word,
        label,
        transition,
    })?;
    Ok(())
}
