//! All transitions of a process.

ghost use Rattle.std.specs.Prelude.{◌≡◌, List, IfOk, OnOk, length, slice_get};
ghost use Rattle.build_process.specs.Added.{AreEntries, HasEach, Holds, IsTableIf, MadeOf};
ghost use Rattle.build_process.specs.Bodies.{bodies_faults, bodies_of};
ghost use Rattle.build_process.specs.Sound.{AreTransitionsOf};
ghost use Rattle.build_flow.specs.Beginnings.{beginnings};
ghost use Rattle.build_statements.specs.Built.{table_of};
ghost use Rattle.build_statements.specs.Contexts.{context_of};
ghost use Rattle.build_statements.specs.Made.{Closed};
ghost use Rattle.build_names.specs.Faults.{Notes};
ghost use Rattle.sdl_system.specs.Body.{Body};
ghost use Rattle.sdl_tree.specs.Views.{process_value};

use crate::added::{Added, add_parts, add_transition, nothing_added};
use build_names::Faults;
use build_statements::Context;
use build_states::TransitionId;
use sdl_system::{Node, NodeId};
use sdl_tree::ProcessDefinition;
use std::alloc::{AllocError, Global};

/// The nodes of a process, and the node at which each of its transitions begins, by the transition's number.
#[derive(Drop)]
pub struct Transitions {
    pub nodes: Vec<Node>,
    pub entries: Vec<NodeId>,
}

impl Transitions {
    /// The node at which a transition begins.
    pub fn entry(&self, transition: TransitionId) -> Option<NodeId>
        ensures { result ≡ slice_get self.now.entries.items transition.0 }
    {
        self.entries.get(transition.0 as usize).copied()
    }
}

/// The transitions of a process: that of its start, then each in the order of the text. There are none where one of
/// them has no node; and where a rule is broken, what the nodes do means nothing.
///
/// Noted are the faults of their statements. Paths without a terminator and the faults of stimuli are noted apart.
pub fn transitions_of<'t>(
    alloc: Global,
    context: &Context<'_, '_, 't>,
    process: &'t ProcessDefinition,
    faults: &mut Faults<'t>,
) -> Result<Option<Transitions>, AllocError>
    ensures table { IfOk result (λ transitions.
        AreTransitionsOf (context_of context.now) (process_value process.now) transitions) }
    ensures entries { IfOk result (λ transitions.
        HasEach (length (beginnings (process_value process.now))) transitions) }
    ensures noted { OnOk result (Notes faults.old faults.new
        (bodies_faults (context_of context.now) (process_value process.now))) }
{
    let added = add_process(alloc, context, process, faults)?;
    finished(alloc, added)
}

fn add_process<'t>(
    alloc: Global,
    context: &Context<'_, '_, 't>,
    process: &'t ProcessDefinition,
    faults: &mut Faults<'t>,
) -> Result<Added, AllocError>
    ensures added { IfOk result (λ added. Holds added (bodies_of (context_of context.now)
        (process_value process.now))) }
    ensures noted { OnOk result (Notes faults.old faults.new
        (bodies_faults (context_of context.now) (process_value process.now))) }
{
    let mut added = nothing_added(alloc);
    add_transition(
        alloc,
        context,
        &mut added,
        &process.start.transition,
        faults,
    )?;
    add_parts(alloc, context, &mut added, &process.body, faults)?;
    Ok(added)
}

/// The transitions that were added, with their joins linked, where each begins at a node.
fn finished(alloc: Global, added: Added) -> Result<Option<Transitions>, AllocError>
    ensures table { IfOk result (λ transitions. (bodies : List Body) → MadeOf (table_of added.table) added.entries.items
        added.is_whole bodies → Closed bodies → IsTableIf bodies transitions) }
    ensures entries { IfOk result (AreEntries added.is_whole added.entries.items) }
{
    if !added.is_whole {
        return Ok(None);
    }
    let nodes = added.table.finish(alloc)?;
    Ok(Some(Transitions {
        nodes,
        entries: added.entries,
    }))
}
