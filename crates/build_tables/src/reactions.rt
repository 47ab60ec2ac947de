//! What is done with the signals that a state names.

ghost use Rattle.std.specs.Prelude.{◌≡◌, Some, IfOk, OnOk, if◌then◌else◌, option_map};
ghost use Rattle.port_model.specs.declared.values.item.SignalId.{SignalId};
ghost use Rattle.build_states.specs.Listed.{rest_value};
ghost use Rattle.sdl_system.specs.State.{named_reaction, same_signal};
ghost use Rattle.build_tables.specs.Linked.{ReactionsOf, RestOf};

use crate::reaction::reaction_of;
use crate::table_parts::TableParts;
use build_states::{Named, Response};
use indexmap::IndexMap;
use port_model::SignalId;
use sdl_system::{NodeId, Reaction, Reactions};
use std::alloc::{AllocError, Global};

/// The reactions to the signals that a state names. None where a transition has no entry.
pub fn reactions_of(
    alloc: Global,
    parts: TableParts<'_>,
    named: &Named<'_>,
) -> Result<Option<Reactions>, AllocError>
    ensures { IfOk result (ReactionsOf parts.entry.entries.now parts.entry.signals named.now) }
{
    let mut by_signal = IndexMap::new(alloc);
    for number in 0..parts.signals {
        let signal = SignalId(number);
        if let Some(response) = named.get(signal) {
            let Some(reaction) = reaction_of(alloc, parts.entries, response)? else {
                return Ok(None);
            };
            add(&mut by_signal, signal, reaction)?;
        }
    }
    Ok(Some(Reactions::new(by_signal)))
}

fn add(
    by_signal: &mut IndexMap<SignalId, Reaction>,
    signal: SignalId,
    reaction: Reaction,
) -> Result<(), AllocError>
    ensures { OnOk result ((other : SignalId) → named_reaction by_signal.new.entries other
        ≡ (if same_signal signal other then Some reaction else named_reaction by_signal.old.entries other)) }
{
    by_signal.insert(signal, reaction)?;
    Ok(())
}

/// The reaction to the other signals of the valid input set, where an asterisk stands. None where its transition has no
/// entry.
pub fn rest_of(
    alloc: Global,
    entries: &[NodeId],
    rest: Option<&Response>,
) -> Result<Option<Option<Reaction>>, AllocError>
    ensures { IfOk result (RestOf entries.now (option_map rest_value rest.entry)) }
{
    match rest {
        None => Ok(Some(None)),
        Some(response) => match reaction_of(alloc, entries, response)? {
            None => Ok(None),
            Some(reaction) => Ok(Some(Some(reaction))),
        },
    }
}
