//! Tables of labels and states.

ghost use Rattle.std.specs.Prelude.{◌≡◌, ◌++◌, map, OnOk};
ghost use Rattle.build_definitions.specs.Rows.{label_rows, placed_labels, placed_states, state_rows};
ghost use Rattle.build_definitions.specs.Seen.{label_seen, state_seen};
ghost use Rattle.build_definitions.specs.Views.{placed_value};
ghost use Rattle.build_names.specs.Labels.{names_listed, process_labels};
ghost use Rattle.build_names.specs.States.{different, state_names};
ghost use Rattle.sdl_tree.specs.Views.{process_value};

use crate::enter::enter;
use crate::entries::{LabelEntry, StateEntry};
use crate::number::next_number;
use crate::part::{Part, Placed};
use build_names::{labels_of, states_of};
use sdl_system::{LabelId, ProcessId, StateId};
use sdl_tree::{Name, ProcessDefinition};
use std::alloc::{AllocError, Global};

pub fn add_labels<'t>(
    alloc: Global,
    table: &mut Vec<LabelEntry<'t>>,
    placed: Placed<'t>,
) -> Result<(), AllocError>
    ensures { OnOk result (map label_seen table.new.items
        ≡ map label_seen table.old.items ++ placed_labels (placed_value placed.entry)) }
{
    match placed.part {
        Part::Process { number, definition } => { add_labels_of(alloc, table, number, definition) }
        _ => Ok(()),
    }
}

fn add_labels_of<'t>(
    alloc: Global,
    table: &mut Vec<LabelEntry<'t>>,
    number: ProcessId,
    process: &'t ProcessDefinition,
) -> Result<(), AllocError>
    ensures { OnOk result (map label_seen table.new.items ≡ map label_seen table.old.items
        ++ label_rows number 0 (process_labels (process_value process.now))) }
{
    let names = labels_of(alloc, process)?;
    push_labels(table, number, &names)
}

fn push_labels<'t>(
    table: &mut Vec<LabelEntry<'t>>,
    process: ProcessId,
    names: &[&'t Name],
) -> Result<(), AllocError>
    ensures { OnOk result (map label_seen table.new.items
        ≡ map label_seen table.old.items ++ label_rows process 0 (names_listed names.now)) }
{
    let mut next = 0;
    for name in names {
        enter(
            table,
            LabelEntry {
                process,
                number: LabelId(next),
                name: *name,
            },
        )?;
        next = next_number(next)?;
    }
    Ok(())
}

pub fn add_states<'t>(
    alloc: Global,
    table: &mut Vec<StateEntry<'t>>,
    placed: Placed<'t>,
) -> Result<(), AllocError>
    ensures { OnOk result (map state_seen table.new.items
        ≡ map state_seen table.old.items ++ placed_states (placed_value placed.entry)) }
{
    match placed.part {
        Part::Process { number, definition } => { add_states_of(alloc, table, number, definition) }
        _ => Ok(()),
    }
}

fn add_states_of<'t>(
    alloc: Global,
    table: &mut Vec<StateEntry<'t>>,
    number: ProcessId,
    process: &'t ProcessDefinition,
) -> Result<(), AllocError>
    ensures { OnOk result (map state_seen table.new.items ≡ map state_seen table.old.items
        ++ state_rows number 0 (different (state_names (process_value process.now)))) }
{
    let names = states_of(alloc, process)?;
    push_states(table, number, &names)
}

fn push_states<'t>(
    table: &mut Vec<StateEntry<'t>>,
    process: ProcessId,
    names: &[&'t Name],
) -> Result<(), AllocError>
    ensures { OnOk result (map state_seen table.new.items
        ≡ map state_seen table.old.items ++ state_rows process 0 (names_listed names.now)) }
{
    let mut next = 0;
    for name in names {
        enter(
            table,
            StateEntry {
                process,
                number: StateId(next),
                name: *name,
            },
        )?;
        next = next_number(next)?;
    }
    Ok(())
}
