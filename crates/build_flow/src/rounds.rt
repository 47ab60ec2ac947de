//! The terminators that the start of a process reaches by any branch and join.

ghost use Rattle.std.specs.Prelude.{◌≡◌, ◌++◌, not, IfOk, OnOk};
ghost use Rattle.build_flow.specs.Joins.{AreAllMet, any_new, is_new, with_join, with_joins, with_name};
ghost use Rattle.build_flow.specs.Listed.{beginning_value, beginnings_listed, found_listed, terminators_listed, texts, turns_of};
ghost use Rattle.build_flow.specs.Mentions.{is_named};
ghost use Rattle.build_flow.specs.Reach.{EachReached, labels_in};
ghost use Rattle.build_flow.specs.Turns.{beginning_found, entry_turn, first_turn, found_from};
ghost use Rattle.sdl_tree.specs.Views.{name_value, terminator_value};

use crate::beginnings::Beginning;
use crate::walk::{Entries, Found, walk_transition};
use build_names::{Faults, Names};
use sdl_lex::Place;
use sdl_tree::{Name, Terminator};
use std::alloc::{AllocError, Global};

/// The terminators to which paths from the start come, over any joins. The names are of joins that it reaches: the
/// search begins with them, and adds each further name that it meets, until there is none.
pub fn reach<'t>(
    alloc: Global,
    beginnings: &[Beginning<'t>],
    labels: &Names<'t, Place>,
    names: Names<'t, usize>,
) -> Result<Vec<Found<'t>>, AllocError>
    requires labels { labels.now ≡ labels_in (beginnings_listed beginnings.now) }
    requires names { EachReached (beginnings_listed beginnings.now) (texts names) }
    ensures { IfOk result (λ found. AreAllMet (beginnings_listed beginnings.now) (terminators_listed found.items)) }
{
    let mut names = names;
    'rounds: loop {
        let entries = Entries::Led {
            labels,
            names: &names,
        };
        let found = found_from(alloc, entries, beginnings)?;
        let any = add_joins(&mut names, &found)?;
        if !any {
            return Ok(found);
        }
    }
}

/// The terminators to which paths from the start and from the entered labels come.
pub fn found_from<'t>(
    alloc: Global,
    entries: Entries<'_, 't>,
    beginnings: &[Beginning<'t>],
) -> Result<Vec<Found<'t>>, AllocError>
    ensures { IfOk result (λ found. found_listed found.items
        ≡ found_from (turns_of entries.entry) (beginnings_listed beginnings.now)) }
{
    let mut found = Vec::new(alloc);
    for beginning in beginnings {
        add_beginning(entries, beginning, &mut found)?;
    }
    Ok(found)
}

fn add_beginning<'t>(
    entries: Entries<'_, 't>,
    beginning: &Beginning<'t>,
    found: &mut Vec<Found<'t>>,
) -> Result<(), AllocError>
    ensures { OnOk result (found_listed found.new.items ≡ found_listed found.old.items
        ++ beginning_found (turns_of entries.entry) (beginning_value beginning.now)) }
{
    let comes = first_turn(entries, beginning);
    walk_transition(entries, beginning.transition, comes, found)?;
    Ok(())
}

/// The turn in which a path comes to the first statement.
fn first_turn(entries: Entries<'_, '_>, beginning: &Beginning<'_>) -> Option<usize>
    ensures { result ≡ first_turn (beginning_value beginning.now).is_start
        (entry_turn (turns_of entries.entry) (beginning_value beginning.now).label) }
{
    match (beginning.is_start, beginning.label) {
        (true, _) => Some(0),
        (false, None) => None,
        (false, Some(label)) => entries.turn(label),
    }
}

/// Adds the names of joins that are new, and says whether there are any.
fn add_joins<'t>(names: &mut Names<'t, usize>, found: &[Found<'t>]) -> Result<bool, AllocError>
    ensures names { OnOk result (texts names.new ≡ with_joins (texts names.old) (terminators_listed found.now)) }
    ensures any { IfOk result (λ added. added ≡ any_new (texts names.old) (terminators_listed found.now)) }
{
    let mut any = false;
    for one in found {
        let is_new = add_join(names, one.terminator)?;
        any = any || is_new;
    }
    Ok(any)
}

fn add_join<'t>(
    names: &mut Names<'t, usize>,
    terminator: &'t Terminator,
) -> Result<bool, AllocError>
    ensures names { OnOk result (texts names.new ≡ with_join (texts names.old) (terminator_value terminator.now)) }
    ensures is_new { IfOk result (λ added. added ≡ is_new (texts names.old) (terminator_value terminator.now)) }
{
    match terminator {
        Terminator::Join { label, .. } => add_name(names, label),
        _ => Ok(false),
    }
}

/// Adds a name, if it is new, and says whether it is.
fn add_name<'t>(names: &mut Names<'t, usize>, name: &'t Name) -> Result<bool, AllocError>
    ensures names { OnOk result (texts names.new ≡ with_name (texts names.old) (name_value name.now).text) }
    ensures is_new { IfOk result (λ added. added ≡ not (is_named (texts names.old) (name_value name.now).text)) }
{
    if names.get(&name.text).is_some() {
        return Ok(false);
    }
    names.declare(name, 0, &mut Faults::new())?;
    Ok(true)
}
