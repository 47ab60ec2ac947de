//! The states of a process.

ghost use Rattle.std.specs.Prelude.{◌≡◌, fold, IfOk, OnOk};
ghost use Rattle.build_names.specs.Labels.{names_listed};
ghost use Rattle.build_names.specs.States.{different, part_states, state_names, with_new, words_listed};
ghost use Rattle.sdl_tree.specs.Views.{body_part_value, name_value, names_value, process_value};

use crate::faults::Faults;
use crate::scopes::Names;
use sdl_lex::Place;
use sdl_tree::{BodyPart, Name, ProcessDefinition, StatePart, States};
use std::alloc::{AllocError, Global};

/// The different states of a process, in the order in which its state lists first name them, each by the word that
/// does.
pub fn states_of<'t>(
    alloc: Global,
    process: &'t ProcessDefinition,
) -> Result<Vec<&'t Name>, AllocError>
    ensures { IfOk result (λ states. names_listed states.items ≡ different (state_names (process_value process.now))) }
{
    let mut seen = Names::new(alloc);
    let mut states = Vec::new(alloc);
    for part in &process.body {
        add_states(&mut seen, &mut states, named_states(part))?;
    }
    Ok(states)
}

/// The names of the state list of a part of a process; none of `state *`, and of what is no state.
fn named_states(part: &BodyPart) -> &[Name]
    ensures { names_value result.now ≡ part_states (body_part_value part.now) }
{
    match part {
        BodyPart::State(
            StatePart {
                states: States::Named(names),
                ..
            },
        ) => names,
        _ => &[],
    }
}

/// Adds those of these names that are new.
fn add_states<'t>(
    seen: &mut Names<'t, Place>,
    states: &mut Vec<&'t Name>,
    names: &'t [Name],
) -> Result<(), AllocError>
    requires { words_listed seen.old ≡ names_listed states.old.items }
    ensures seen { OnOk result (words_listed seen.new ≡ names_listed states.new.items) }
    ensures states { OnOk result (names_listed states.new.items
        ≡ fold with_new (names_listed states.old.items) (names_value names.now)) }
{
    for name in names {
        add_state(seen, states, name)?;
    }
    Ok(())
}

fn add_state<'t>(
    seen: &mut Names<'t, Place>,
    states: &mut Vec<&'t Name>,
    name: &'t Name,
) -> Result<(), AllocError>
    requires { words_listed seen.old ≡ names_listed states.old.items }
    ensures seen { OnOk result (words_listed seen.new ≡ names_listed states.new.items) }
    ensures states { OnOk result (names_listed states.new.items
        ≡ with_new (names_listed states.old.items) (name_value name.now)) }
{
    if seen.get(name.text.as_str()).is_some() {
        return Ok(());
    }
    seen.declare(name, name.place, &mut Faults::new())?;
    states.push(name)?;
    Ok(())
}
