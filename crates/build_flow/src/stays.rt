//! `nextstate -` that the start can reach.

ghost use Rattle.std.specs.Prelude.{flat_map, IfOk, OnOk};
ghost use Rattle.build_flow.specs.Joins.{AreAllMet};
ghost use Rattle.build_flow.specs.Listed.{beginnings_listed, terminators_listed};
ghost use Rattle.build_flow.specs.Stays.{NotesStays, stay_fault};
ghost use Rattle.build_names.specs.Faults.{Notes};
ghost use Rattle.sdl_tree.specs.Views.{process_value, terminator_value};

use crate::beginnings::{Beginning, beginnings_of};
use crate::mentions::labels_in;
use crate::quick::quick_names;
use crate::rounds::reach;
use crate::walk::Found;
use build_names::{Faults, Rule, Token};
use sdl_tree::{Mark, NextState, ProcessDefinition, Terminator};
use std::alloc::{AllocError, Global};

/// Notes `NoState` at the `-` of each `nextstate -` that the start of a process can reach by any branch and join: there
/// is no state to stay in (Z.101: nextstate). A join leads to the first label of its name.
pub fn note_stays<'t>(
    alloc: Global,
    process: &'t ProcessDefinition,
    faults: &mut Faults<'t>,
) -> Result<(), AllocError>
    ensures { OnOk result (NotesStays (process_value process.now) faults.old faults.new) }
{
    let beginnings = beginnings_of(alloc, process)?;
    let found = reached(alloc, &beginnings)?;
    note_found(&found, faults);
    Ok(())
}

/// The terminators to which paths from the start come, over any joins.
fn reached<'t>(alloc: Global, beginnings: &[Beginning<'t>]) -> Result<Vec<Found<'t>>, AllocError>
    ensures { IfOk result (λ found. AreAllMet (beginnings_listed beginnings.now) (terminators_listed found.items)) }
{
    let labels = labels_in(alloc, beginnings)?;
    let names = quick_names(alloc, beginnings, &labels)?;
    reach(alloc, beginnings, &labels, names)
}

fn note_found<'t>(found: &[Found<'t>], faults: &mut Faults<'t>)
    ensures { Notes faults.old faults.new (flat_map stay_fault (terminators_listed found.now)) }
{
    for one in found {
        note_stay(one.terminator, faults);
    }
}

fn note_stay<'t>(terminator: &'t Terminator, faults: &mut Faults<'t>)
    ensures { Notes faults.old faults.new (stay_fault (terminator_value terminator.now)) }
{
    if let Terminator::NextState {
        state: NextState::Same(dash),
        ..
    } = terminator
    {
        faults.note(Rule::NoState, Token::of_mark(Mark::Minus, *dash));
    }
}
