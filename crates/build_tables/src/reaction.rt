//! What is done with a signal, with the node at which its transition begins.

ghost use Rattle.std.specs.Prelude.{◌≡◌, IfOk, option_map};
ghost use Rattle.build_states.specs.Listed.{response_value};
ghost use Rattle.build_tables.specs.Linked.{entry_of, linked, reaction_value};

use build_states::{Response, TransitionId};
use sdl_system::{NodeId, Reaction, Reception, VariableId};
use std::alloc::{AllocError, Global};

/// Makes the reaction of which this response tells. None if its transition has no entry.
pub fn reaction_of(
    alloc: Global,
    entries: &[NodeId],
    response: &Response,
) -> Result<Option<Reaction>, AllocError>
    ensures { IfOk result (λ reaction. option_map reaction_value reaction
        ≡ linked entries.now (response_value response.now)) }
{
    match response {
        Response::Input {
            variables,
            condition,
            begin,
        } => {
            let Some(begin) = entry_of(entries, *begin) else {
                return Ok(None);
            };
            let variables = copied(alloc, variables)?;
            Ok(Some(Reaction::Input {
                reception: Reception { variables, begin },
                condition: *condition,
            }))
        }
        Response::Priority { variables, begin } => {
            let Some(begin) = entry_of(entries, *begin) else {
                return Ok(None);
            };
            let variables = copied(alloc, variables)?;
            Ok(Some(Reaction::Priority(Reception { variables, begin })))
        }
        Response::Save => Ok(Some(Reaction::Save)),
    }
}

/// The node at which a transition begins, if it is there.
pub fn entry_of(entries: &[NodeId], transition: TransitionId) -> Option<NodeId>
    ensures { result ≡ entry_of entries.now transition }
{
    entries.get(transition.0 as usize).copied()
}

fn copied(
    alloc: Global,
    variables: &[Option<VariableId>],
) -> Result<Vec<Option<VariableId>>, AllocError>
    ensures { IfOk result (λ list. list.items ≡ variables.now) }
{
    let mut list = Vec::new(alloc);
    list.extend_from_slice(variables)?;
    Ok(list)
}
