//! Transitions that were added to a table of nodes.

ghost use Rattle.std.specs.Prelude.{◌++◌, ◌∷◌, [], List, Option, None, Some, flat_map, map, OnOk};
ghost use Rattle.build_process.specs.Added.{Enters, Holds, Stand};
ghost use Rattle.build_process.specs.Bodies.{bodies_among, faults_among};
ghost use Rattle.build_flow.specs.Beginnings.{part_beginnings, stimulus_beginnings};
ghost use Rattle.build_statements.specs.Built.{BuiltIf, Table, table_of};
ghost use Rattle.build_statements.specs.Contexts.{context_of};
ghost use Rattle.build_statements.specs.Transitions.{body_in, labelled, transition_faults};
ghost use Rattle.build_names.specs.Faults.{Notes};
ghost use Rattle.sdl_system.specs.Body.{Body};
ghost use Rattle.sdl_tree.specs.Views.{body_part_value, name_value, stimulus_value, transition_value};

use build_names::Faults;
use build_statements::{Context, NodeTable, add};
use sdl_system::NodeId;
use sdl_tree::{BodyPart, FreeAction, Name, Stimulus, Transition};
use std::alloc::{AllocError, Global};

/// The transitions of a process that were added.
#[derive(Drop)]
pub(crate) struct Added {
    pub table: NodeTable,
    /// The node at which each begins that has one.
    pub entries: Vec<NodeId>,
    /// Whether each of them has one.
    pub is_whole: bool,
}

/// Nothing was added yet.
pub(crate) fn nothing_added(alloc: Global) -> Added
    ensures { Holds result [] }
{
    Added {
        table: NodeTable::new(alloc),
        entries: Vec::new(alloc),
        is_whole: true,
    }
}

/// Adds the transitions of the states and of the connections of a process.
pub(crate) fn add_parts<'t>(
    alloc: Global,
    context: &Context<'_, '_, 't>,
    added: &mut Added,
    parts: &'t [BodyPart],
    faults: &mut Faults<'t>,
) -> Result<(), AllocError>
    ensures added { OnOk result ((found : List (Option Body)) → Holds added.old found → Holds added.new (found
        ++ bodies_among (context_of context.now) (flat_map part_beginnings (map body_part_value parts.now)))) }
    ensures noted { OnOk result (Notes faults.old faults.new
        (faults_among (context_of context.now) (flat_map part_beginnings (map body_part_value parts.now)))) }
{
    for part in parts {
        add_part(alloc, context, added, part, faults)?;
    }
    Ok(())
}

fn add_part<'t>(
    alloc: Global,
    context: &Context<'_, '_, 't>,
    added: &mut Added,
    part: &'t BodyPart,
    faults: &mut Faults<'t>,
) -> Result<(), AllocError>
    ensures added { OnOk result ((found : List (Option Body)) → Holds added.old found → Holds added.new (found
        ++ bodies_among (context_of context.now) (part_beginnings (body_part_value part.now)))) }
    ensures noted { OnOk result (Notes faults.old faults.new
        (faults_among (context_of context.now) (part_beginnings (body_part_value part.now)))) }
{
    match part {
        BodyPart::State(part) => add_stimuli(alloc, context, added, &part.stimuli, faults),
        BodyPart::FreeAction(action) => add_connection(alloc, context, added, action, faults),
    }
}

fn add_stimuli<'t>(
    alloc: Global,
    context: &Context<'_, '_, 't>,
    added: &mut Added,
    stimuli: &'t [Stimulus],
    faults: &mut Faults<'t>,
) -> Result<(), AllocError>
    ensures added { OnOk result ((found : List (Option Body)) → Holds added.old found → Holds added.new (found
        ++ bodies_among (context_of context.now) (flat_map stimulus_beginnings (map stimulus_value stimuli.now)))) }
    ensures noted { OnOk result (Notes faults.old faults.new
        (faults_among (context_of context.now) (flat_map stimulus_beginnings (map stimulus_value stimuli.now)))) }
{
    for stimulus in stimuli {
        add_stimulus(alloc, context, added, stimulus, faults)?;
    }
    Ok(())
}

fn add_stimulus<'t>(
    alloc: Global,
    context: &Context<'_, '_, 't>,
    added: &mut Added,
    stimulus: &'t Stimulus,
    faults: &mut Faults<'t>,
) -> Result<(), AllocError>
    ensures added { OnOk result ((found : List (Option Body)) → Holds added.old found → Holds added.new (found
        ++ bodies_among (context_of context.now) (stimulus_beginnings (stimulus_value stimulus.now)))) }
    ensures noted { OnOk result (Notes faults.old faults.new
        (faults_among (context_of context.now) (stimulus_beginnings (stimulus_value stimulus.now)))) }
{
    match stimulus {
        Stimulus::Input(part) => add_transition(alloc, context, added, &part.transition, faults),
        Stimulus::Priority(part) => add_transition(alloc, context, added, &part.transition, faults),
        Stimulus::Save(_) => Ok(()),
        Stimulus::Continuous(part) => {
            add_transition(alloc, context, added, &part.transition, faults)
        }
    }
}

/// Adds a transition that no label opens.
pub(crate) fn add_transition<'t>(
    alloc: Global,
    context: &Context<'_, '_, 't>,
    added: &mut Added,
    transition: &'t Transition,
    faults: &mut Faults<'t>,
) -> Result<(), AllocError>
    ensures added { OnOk result ((found : List (Option Body)) → Holds added.old found → Holds added.new (found
        ++ body_in (context_of context.now) (transition_value transition.now) ∷ [])) }
    ensures noted { OnOk result (Notes faults.old faults.new
        (transition_faults (context_of context.now) (transition_value transition.now))) }
{
    let place = add(alloc, context, &mut added.table, transition, None, faults)?;
    note_entry(added, place)
}

/// Adds the transition of a connection, which its label opens.
fn add_connection<'t>(
    alloc: Global,
    context: &Context<'_, '_, 't>,
    added: &mut Added,
    action: &'t FreeAction,
    faults: &mut Faults<'t>,
) -> Result<(), AllocError>
    ensures added { OnOk result ((found : List (Option Body)) → Holds added.old found → Holds added.new (found
        ++ labelled (context_of context.now) (Some (name_value action.now.label))
        (body_in (context_of context.now) (transition_value action.now.transition)) ∷ [])) }
    ensures noted { OnOk result (Notes faults.old faults.new
        (transition_faults (context_of context.now) (transition_value action.now.transition))) }
{
    let place = add(
        alloc,
        context,
        &mut added.table,
        &action.transition,
        None,
        faults,
    )?;
    add_label(context, &mut added.table, &action.label, place)?;
    note_entry(added, place)
}

/// Marks the place at which a connection begins with its label. There is none where its transition has no statement.
fn add_label(
    context: &Context<'_, '_, '_>,
    table: &mut NodeTable,
    label: &Name,
    place: Option<NodeId>,
) -> Result<(), AllocError>
    ensures { OnOk result ((before : Table) (found : Option Body) → BuiltIf before (table_of table.old) place found None
        → Enters before (table_of table.new) place
        (labelled (context_of context.now) (Some (name_value label.now)) found)) }
{
    let Some(node) = place else {
        return Ok(());
    };
    match context.labels.get(&label.text) {
        None => Ok(()),
        Some(label) => table.add_label(label, node),
    }
}

/// Notes the node at which one more transition begins.
fn note_entry(added: &mut Added, place: Option<NodeId>) -> Result<(), AllocError>
    ensures { OnOk result ((before : Table) (found : List (Option Body)) (last : Option Body)
        → Stand before added.old.entries.items added.old.is_whole found
        → Enters before (table_of added.old.table) place last → Holds added.new (found ++ last ∷ [])) }
{
    match place {
        Some(node) => added.entries.push(node)?,
        None => added.is_whole = false,
    }
    Ok(())
}
