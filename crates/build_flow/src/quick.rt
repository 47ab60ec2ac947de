//! Names of joins that the start reaches, found by a quick search and tested in one walk.

ghost use Rattle.std.specs.Prelude.{◌≡◌, ◌++◌, ◌∷◌, [], IfOk, OnOk};
ghost use Rattle.build_flow.specs.Listed.{beginnings_listed, found_listed, found_value, led_turn, texts};
ghost use Rattle.build_flow.specs.Mentions.{is_named};
ghost use Rattle.build_flow.specs.Quick.{all_confirmed, all_named, confirmed_in, is_sooner, name_text, name_texts};
ghost use Rattle.build_flow.specs.Reach.{EachReached, labels_in};
ghost use Rattle.build_flow.specs.Turns.{found_from};
ghost use Rattle.sdl_tree.specs.Views.{name_value};

use crate::beginnings::Beginning;
use crate::order::order;
use crate::rounds::found_from;
use crate::walk::{Entries, Found};
use build_names::{Faults, Names};
use sdl_lex::Place;
use sdl_tree::{Name, Terminator};
use std::alloc::{AllocError, Global};

/// Names of joins that the start reaches: all that have a label, where the search is as good as it should be. What it
/// finds is tested, each name by a join on it to which a path comes from the start or from the label of a name before
/// it; where one has no such join, none is given.
pub(crate) fn quick_names<'t>(
    alloc: Global,
    beginnings: &[Beginning<'t>],
    labels: &Names<'t, Place>,
) -> Result<Names<'t, usize>, AllocError>
    requires { labels.now ≡ labels_in (beginnings_listed beginnings.now) }
    ensures { IfOk result (λ names. EachReached (beginnings_listed beginnings.now) (texts names)) }
{
    let order = order(alloc, beginnings)?;
    let names = in_turn(alloc, &order)?;
    let are_confirmed = are_confirmed(alloc, beginnings, labels, &names, &order)?;
    if are_confirmed {
        Ok(names)
    } else {
        Ok(Names::new(alloc))
    }
}

/// Whether a path comes to a join on each of these in a turn before the name's own.
fn are_confirmed<'t>(
    alloc: Global,
    beginnings: &[Beginning<'t>],
    labels: &Names<'t, Place>,
    names: &Names<'t, usize>,
    order: &[&'t Name],
) -> Result<bool, AllocError>
    ensures { IfOk result (λ are. are ≡ all_named
        (all_confirmed names.now (found_from (led_turn labels.now names.now) (beginnings_listed beginnings.now)))
        (name_texts order.now)) }
{
    let found = found_from(alloc, Entries::Led { labels, names }, beginnings)?;
    let confirmed = confirmed(alloc, names, &found)?;
    Ok(are_named(&confirmed, order))
}

/// These names, each with its turn: its place among them, from 1. The start has the turn 0.
fn in_turn<'t>(alloc: Global, order: &[&'t Name]) -> Result<Names<'t, usize>, AllocError>
    ensures { IfOk result (λ names. texts names ≡ name_texts order.now) }
{
    let mut names = Names::new(alloc);
    for name in order {
        add_name(&mut names, name)?;
    }
    Ok(names)
}

fn add_name<'t>(names: &mut Names<'t, usize>, name: &'t Name) -> Result<(), AllocError>
    ensures { OnOk result (texts names.new ≡ texts names.old ++ name_text name.entry ∷ []) }
{
    let turn = names.len().saturating_add(1);
    names.declare(name, turn, &mut Faults::new())?;
    Ok(())
}

/// The names of the joins to which paths come in a turn before the name's own.
fn confirmed<'t>(
    alloc: Global,
    names: &Names<'t, usize>,
    found: &[Found<'t>],
) -> Result<Names<'t, usize>, AllocError>
    ensures { IfOk result (λ confirmed. texts confirmed ≡ all_confirmed names.now (found_listed found.now)) }
{
    let mut confirmed = Names::new(alloc);
    for one in found {
        add_confirmed(names, *one, &mut confirmed)?;
    }
    Ok(confirmed)
}

fn add_confirmed<'t>(
    names: &Names<'t, usize>,
    found: Found<'t>,
    confirmed: &mut Names<'t, usize>,
) -> Result<(), AllocError>
    ensures { OnOk result (texts confirmed.new ≡
        texts confirmed.old ++ confirmed_in names.now (found_value found.entry)) }
{
    if let Terminator::Join { label, .. } = found.terminator {
        if is_sooner(found.turn, names.get(&label.text)) {
            confirmed.declare(label, 0, &mut Faults::new())?;
        }
    }
    Ok(())
}

fn is_sooner(turn: usize, own: Option<usize>) -> bool
    ensures { result ≡ is_sooner turn own }
{
    match own {
        None => false,
        Some(own) => turn < own,
    }
}

/// Whether all of these are among the names.
fn are_named<'t>(names: &Names<'t, usize>, order: &[&'t Name]) -> bool
    ensures { result ≡ all_named (texts names.now) (name_texts order.now) }
{
    for name in order {
        if !is_named(names, name) {
            return false;
        }
    }
    true
}

fn is_named(names: &Names<'_, usize>, name: &Name) -> bool
    ensures { result ≡ is_named (texts names.now) (name_value name.now).text }
{
    names.get(&name.text).is_some()
}
