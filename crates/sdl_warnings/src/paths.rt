//! Signals of paths to and from the environment, and of outputs that say to whom they send.

ghost use Rattle.std.specs.Prelude.{◌≡◌, ◌++◌, [], IfOk, OnOk, false, map};
ghost use Rattle.sdl_warnings.specs.Heads.{head_value, nowhere};
ghost use Rattle.sdl_warnings.specs.Signals.{addressed, addressed_at, carried, carried_at, has_asterisk, outside_after, own_after};
ghost use Rattle.sdl_warnings.specs.Words.{is_mark_by};

use crate::heads::{Head, Spot, add_head};
use crate::words::{is_mark, mark_of};
use parse_expressions::PlacedWord;
use sdl_tree::Mark;
use std::alloc::{AllocError, Global};

/// The signals of paths that have the environment behind this keyword, `from` or `to`.
pub fn carried<'t>(
    alloc: Global,
    words: &[PlacedWord<'t>],
    keyword: Mark,
) -> Result<Vec<Head<'t>>, AllocError>
    ensures { IfOk result (λ found. map head_value found.items ≡ carried keyword false None nowhere words.now) }
{
    let mut found = Vec::new(alloc);
    let mut is_outside = false;
    let mut before = None;
    let mut spot = Spot::NOWHERE;
    for word in words {
        add_carried(&mut found, is_outside, spot, *word)?;
        is_outside = outside_after(keyword, before, is_outside, *word);
        before = mark_of(*word);
        spot = spot.after(Mark::With, *word);
    }
    Ok(found)
}

/// Adds the signal of a path that a word is, if an end of the path is the environment.
fn add_carried<'t>(
    found: &mut Vec<Head<'t>>,
    is_outside: bool,
    spot: Spot,
    word: PlacedWord<'t>,
) -> Result<(), AllocError>
    ensures { OnOk result (map head_value found.new.items
        ≡ map head_value found.old.items ++ carried_at is_outside spot word.entry) }
{
    if is_outside {
        add_head(found, spot, word)
    } else {
        Ok(())
    }
}

/// Whether an end of a path, whose name comes after this keyword, is the environment after a word.
fn outside_after(
    keyword: Mark,
    before: Option<Mark>,
    is_outside: bool,
    word: PlacedWord<'_>,
) -> bool
    ensures { result ≡ outside_after keyword before is_outside word.entry }
{
    if is_that(before, keyword) {
        is_mark(word, Mark::Env)
    } else {
        is_outside
    }
}

#[tactic(auto, unfolding(parse_expressions::specs::Reading::same_mark))]
fn is_that(before: Option<Mark>, mark: Mark) -> bool
    ensures { result ≡ is_mark_by mark before }
{
    match before {
        Some(found) => found == mark,
        None => false,
    }
}

/// The signals of outputs with `to`.
pub fn addressed<'t>(alloc: Global, words: &[PlacedWord<'t>]) -> Result<Vec<Head<'t>>, AllocError>
    ensures { IfOk result (λ found. map head_value found.items ≡ addressed nowhere [] words.now) }
{
    let mut found = Vec::new(alloc);
    let mut own = Vec::new(alloc);
    let mut spot = Spot::NOWHERE;
    for word in words {
        add_addressed(&mut found, &own, spot, *word)?;
        add_own(&mut own, spot, *word)?;
        spot = spot.after(Mark::Output, *word);
    }
    Ok(found)
}

/// Adds these signals of an output, if a word says to whom it sends them.
fn add_addressed<'t>(
    found: &mut Vec<Head<'t>>,
    own: &[Head<'t>],
    spot: Spot,
    word: PlacedWord<'t>,
) -> Result<(), AllocError>
    ensures { OnOk result (map head_value found.new.items
        ≡ map head_value found.old.items ++ addressed_at spot (map head_value own.now) word.entry) }
{
    if spot.is_within && is_mark(word, Mark::To) {
        found.extend_from_slice(own)?;
    }
    Ok(())
}

/// Adds the signal of an output that a word is; where it has no more of them of which it isn't said yet to whom it sends
/// them, all go.
fn add_own<'t>(own: &mut Vec<Head<'t>>, spot: Spot, word: PlacedWord<'t>) -> Result<(), AllocError>
    ensures { OnOk result (map head_value own.new.items ≡ own_after spot (map head_value own.old.items) word.entry) }
{
    if spot.is_within && !is_mark(word, Mark::To) {
        add_head(own, spot, word)
    } else {
        own.clear();
        Ok(())
    }
}

/// Whether an asterisk takes the place of the names in a list that this mark begins.
pub fn has_asterisk(words: &[PlacedWord<'_>], list: Mark) -> bool
    ensures { result ≡ has_asterisk list nowhere words.now }
{
    let mut spot = Spot::NOWHERE;
    for word in words {
        if spot.begins && is_mark(*word, Mark::Asterisk) {
            return true;
        }
        spot = spot.after(list, *word);
    }
    false
}
