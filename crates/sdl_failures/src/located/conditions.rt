//! A condition of a state in the tree of a text.

use sdl_system::ConditionId;
use sdl_tree::{BodyPart, Expression, ProcessDefinition, Spelling, Stimulus};

/// A condition, with the word `provided` before it.
#[derive(Clone, Copy)]
pub struct Condition<'t> {
    pub word: Spelling,
    pub expression: &'t Expression,
}

/// The condition of this number. Those of a process are numbered in the order of the text.
pub fn condition_at(definition: &ProcessDefinition, number: ConditionId) -> Option<Condition<'_>> {
    let mut left = number.0;
    for part in &definition.body {
        if let BodyPart::State(part) = part {
            let found = condition_in(&part.stimuli, &mut left);
            if found.is_some() {
                return found;
            }
        }
    }
    None
}

fn condition_in<'t>(stimuli: &'t [Stimulus], left: &mut u32) -> Option<Condition<'t>> {
    for stimulus in stimuli {
        if let Some(condition) = condition_of(stimulus) {
            if *left == 0 {
                return Some(condition);
            }
            *left -= 1;
        }
    }
    None
}

fn condition_of(stimulus: &Stimulus) -> Option<Condition<'_>> {
    match stimulus {
        Stimulus::Input(part) => {
            let enabling = part.condition.as_ref()?;
            Some(Condition {
                word: enabling.word,
                expression: &enabling.condition,
            })
        }
        Stimulus::Continuous(signal) => Some(Condition {
            word: signal.word,
            expression: &signal.condition,
        }),
        Stimulus::Priority(_) | Stimulus::Save(_) => None,
    }
}
