//! Transitions with a path to their end without a terminator.

ghost use Rattle.std.specs.Prelude.{◌≡◌, flat_map, true, IfOk, OnOk};
ghost use Rattle.build_flow.specs.Ends.{beginning_faults, ends_faults, enters_named};
ghost use Rattle.build_flow.specs.Listed.{beginning_value, beginnings_listed, texts};
ghost use Rattle.build_flow.specs.Passing.{transition_passed};
ghost use Rattle.build_names.specs.Faults.{Notes};
ghost use Rattle.sdl_tree.specs.Views.{process_value, transition_value};

use crate::beginnings::{Beginning, beginnings_of};
use crate::mentions::joins_in;
use crate::walk::{Entries, walk_transition};
use build_names::{Faults, Names, Rule};
use sdl_tree::{ProcessDefinition, Transition};
use std::alloc::{AllocError, Global};

/// Notes `NoEnd` at the first word of each start, stimulus or connection of a process that has a path to its end
/// without a terminator (Z.101: transition string, terminator). Paths begin at its first statement, and at each of its
/// labels that some join of the process names. A decision all of whose parts end, ends.
pub fn note_ends<'t>(
    alloc: Global,
    process: &'t ProcessDefinition,
    faults: &mut Faults<'t>,
) -> Result<(), AllocError>
    ensures { OnOk result (Notes faults.old faults.new (ends_faults (process_value process.now))) }
{
    let beginnings = beginnings_of(alloc, process)?;
    let joins = joins_in(alloc, &beginnings)?;
    note_all(alloc, &joins, &beginnings, faults)
}

fn note_all<'t>(
    alloc: Global,
    joins: &Names<'t, usize>,
    beginnings: &[Beginning<'t>],
    faults: &mut Faults<'t>,
) -> Result<(), AllocError>
    ensures { OnOk result (Notes faults.old faults.new
        (flat_map (beginning_faults (texts joins.now)) (beginnings_listed beginnings.now))) }
{
    for beginning in beginnings {
        note(alloc, joins, beginning, faults)?;
    }
    Ok(())
}

fn note<'t>(
    alloc: Global,
    joins: &Names<'t, usize>,
    beginning: &Beginning<'t>,
    faults: &mut Faults<'t>,
) -> Result<(), AllocError>
    ensures { OnOk result (Notes faults.old faults.new
        (beginning_faults (texts joins.now) (beginning_value beginning.now))) }
{
    if passes(alloc, joins, beginning.transition)? {
        faults.note(Rule::NoEnd, beginning.word);
    }
    Ok(())
}

/// Whether a path through the transition runs off its end.
fn passes<'t>(
    alloc: Global,
    joins: &Names<'t, usize>,
    transition: &'t Transition,
) -> Result<bool, AllocError>
    ensures { IfOk result (λ passed. passed
        ≡ transition_passed (enters_named (texts joins.now)) (transition_value transition.now) true) }
{
    let mut found = Vec::new(alloc);
    let turn = walk_transition(Entries::Named(joins), transition, Some(0), &mut found)?;
    Ok(turn.is_some())
}
