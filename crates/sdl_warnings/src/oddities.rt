//! What is suspicious in what processes do, as warnings.

ghost use Rattle.std.specs.Prelude.{◌≡◌, ◌++◌, IfOk, OnOk, map};
ghost use Rattle.sdl_tree.specs.Views.{tree_value};
ghost use Rattle.sdl_warnings.specs.Found.{oddities, warning_of};

use crate::decisions::add_decisions;
use crate::loops::add_loops;
use crate::signals::add_signals;
use crate::suspicion::{Oddity, Suspicion, Warning};
use parse_expressions::PlacedWord;
use sdl_tree::Tree;
use std::alloc::{AllocError, Global};

/// What is suspicious of signals, loops and decisions.
pub fn oddities(
    alloc: Global,
    tree: &Tree,
    words: &[PlacedWord<'_>],
) -> Result<Vec<Oddity>, AllocError>
    ensures { IfOk result (λ found. found.items ≡ oddities (tree_value tree.now) words.now) }
{
    let mut found = Vec::new(alloc);
    add_signals(alloc, &mut found, tree, words)?;
    add_loops(&mut found, words)?;
    add_decisions(alloc, &mut found, words)?;
    Ok(found)
}

/// Adds these as warnings.
pub fn add_oddities(found: &mut Vec<Warning>, oddities: &[Oddity]) -> Result<(), AllocError>
    ensures { OnOk result (found.new.items ≡ found.old.items ++ map warning_of oddities.now) }
{
    for oddity in oddities {
        found.push(Warning {
            suspicion: Suspicion::Behaviour(oddity.behaviour),
            place: oddity.place,
        })?;
    }
    Ok(())
}
