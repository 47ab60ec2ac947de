//! The class of each signal in a state.

ghost use Rattle.std.specs.Prelude.{◌≡◌, IfOk, option_copied};
ghost use Rattle.build_tables.specs.Linked.{AreClasses, choice_by};

use crate::table_parts::TableParts;
use port_model::{Selection, SignalId};
use sdl_system::{Choice, Reaction, Reactions, SignalSet};
use std::alloc::{AllocError, Global};

/// The class of each signal where every condition is true, by what is done with those that the state names, and with
/// the others of the valid input set.
pub fn selection_of(
    alloc: Global,
    parts: TableParts<'_>,
    reactions: &Reactions,
    rest: Option<&Reaction>,
) -> Result<Selection, AllocError>
    ensures { IfOk result (AreClasses parts.entry.signals parts.entry.valid.now reactions.now
        (option_copied rest.entry)) }
{
    let mut classes = Vec::new(alloc);
    for number in 0..parts.signals {
        let choice = choice_by(parts.valid, reactions, rest, SignalId(number));
        classes.push(choice.class)?;
    }
    Ok(Selection::new(classes))
}

fn choice_by(
    valid: &SignalSet,
    reactions: &Reactions,
    rest: Option<&Reaction>,
    signal: SignalId,
) -> Choice
    ensures { result ≡ choice_by valid.now reactions.now (option_copied rest.entry) signal }
{
    match reactions.get(signal) {
        Some(reaction) => Choice::of(Some(reaction)),
        None if valid.contains(signal) => Choice::of(rest),
        None => Choice::of(None),
    }
}
