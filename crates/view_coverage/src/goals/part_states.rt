//! The states that a part belongs to.

ghost use Rattle.std.specs.Prelude.{◌≡◌, ◌++◌, IfOk, OnOk, string_bytes};
ghost use Rattle.std.specs.List.{list_any};
ghost use Rattle.std.specs.Str.{bytes_eq};
ghost use Rattle.build_names.specs.Labels.{names_listed};
ghost use Rattle.build_states.specs.States.{is_named, is_part_of};
ghost use Rattle.sdl_tree.specs.Views.{names_value, states_value};
ghost use Rattle.view_coverage.specs.Stimuli.{state_if, states_from};

use build_definitions::next_number;
use sdl_system::StateId;
use sdl_tree::{Name, States};
use std::alloc::{AllocError, Global};

/// The states to which a part with this state list belongs, among the states of a process: those that it names; of an
/// asterisk all but those that it leaves out.
pub fn states_in(
    alloc: Global,
    listed: &States,
    states: &[&Name],
) -> Result<Vec<StateId>, AllocError>
    ensures { IfOk result (λ found. found.items ≡ states_from 0 (states_value listed.now) (names_listed states.now)) }
{
    let mut found = Vec::new(alloc);
    let mut next = 0;
    for state in states {
        add_if(&mut found, is_part_of(*state, listed), StateId(next))?;
        next = next_number(next)?;
    }
    Ok(found)
}

/// Adds a state if that holds.
fn add_if(found: &mut Vec<StateId>, belongs: bool, state: StateId) -> Result<(), AllocError>
    ensures { OnOk result (found.new.items ≡ found.old.items ++ state_if belongs state) }
{
    if belongs {
        found.push(state)?;
    }
    Ok(())
}

/// Whether a part with this state list belongs to the state of this name.
fn is_part_of(state: &Name, listed: &States) -> bool
    ensures { result ≡ is_part_of (string_bytes state.now.text) (states_value listed.now) }
{
    match listed {
        States::Named(names) => is_named(names, state.text.as_str()),
        States::All { except, .. } => !is_named(except, state.text.as_str()),
    }
}

fn is_named(names: &[Name], text: &str) -> bool
    ensures { result ≡ is_named (names_value names.now) text.now }
{
    has_text(names, text)
}

fn has_text(names: &[Name], text: &str) -> bool
    ensures { result ≡ list_any (λ name. bytes_eq text.now (string_bytes name.text)) names.now }
{
    names.iter().any(|name| text == name.text.as_str())
}
