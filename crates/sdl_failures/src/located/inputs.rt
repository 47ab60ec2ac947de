//! The input of a signal in the tree of a text.

use sdl_tree::{BodyPart, Input, Inputs, Name, ProcessDefinition, States, Stimulus};

/// The input by which a state takes a signal that an input of it names, by their names.
pub fn input_of<'t>(
    definition: &'t ProcessDefinition,
    state: &str,
    signal: &str,
) -> Option<&'t Input> {
    for part in &definition.body {
        if let BodyPart::State(part) = part
            && is_part_of(&part.states, state)
        {
            let found = input_in(&part.stimuli, signal);
            if found.is_some() {
                return found;
            }
        }
    }
    None
}

/// Whether a part belongs to a state.
fn is_part_of(states: &States, state: &str) -> bool {
    match states {
        States::Named(names) => has_name(names, state),
        States::All { except, .. } => !has_name(except, state),
    }
}

fn has_name(names: &[Name], text: &str) -> bool {
    names.iter().any(|name| name.text.as_str() == text)
}

fn input_in<'t>(stimuli: &'t [Stimulus], signal: &str) -> Option<&'t Input> {
    for stimulus in stimuli {
        let found = match stimulus {
            Stimulus::Input(part) => listed_in(&part.inputs, signal),
            Stimulus::Priority(part) => named_in(&part.inputs, signal),
            Stimulus::Save(_) | Stimulus::Continuous(_) => None,
        };
        if found.is_some() {
            return found;
        }
    }
    None
}

fn listed_in<'t>(inputs: &'t Inputs, signal: &str) -> Option<&'t Input> {
    match inputs {
        Inputs::Listed(list) => named_in(list, signal),
        Inputs::All(_) => None,
    }
}

fn named_in<'t>(inputs: &'t [Input], signal: &str) -> Option<&'t Input> {
    for input in inputs {
        if input.signal.text.as_str() == signal {
            return Some(input);
        }
    }
    None
}
