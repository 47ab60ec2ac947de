//! States that nothing leads to, and labels that nobody joins.

ghost use Rattle.std.specs.Prelude.{◌≡◌, ◌++◌, OnOk};
ghost use Rattle.sdl_warnings.specs.Missing.{unjoined, unreached};
ghost use Rattle.sdl_warnings.specs.Processes.{of_states};

use crate::colons::labels;
use crate::heads::heads;
use crate::missing::add_missing;
use crate::name_set::NameSet;
use crate::suspicion::{Suspicion, Warning};
use parse_expressions::PlacedWord;
use sdl_tree::Mark;
use std::alloc::{AllocError, Global};

/// Adds what is suspicious in the states and labels of the process with these words.
pub fn add_states(
    alloc: Global,
    found: &mut Vec<Warning>,
    words: &[PlacedWord<'_>],
) -> Result<(), AllocError>
    ensures { OnOk result (found.new.items ≡ found.old.items ++ of_states words.now) }
{
    add_unreached(alloc, found, words)?;
    add_unjoined(alloc, found, words)
}

/// Adds the states that no `nextstate` of the process with these words names, wherever they have a part.
fn add_unreached(
    alloc: Global,
    found: &mut Vec<Warning>,
    words: &[PlacedWord<'_>],
) -> Result<(), AllocError>
    ensures { OnOk result (found.new.items ≡ found.old.items ++ unreached words.now) }
{
    let states = heads(alloc, words, Mark::State)?;
    let named = heads(alloc, words, Mark::NextState)?;
    let reached = NameSet::of(alloc, &named)?;
    add_missing(found, Suspicion::UnreachedState, &states, &reached)
}

/// Adds the labels that no `join` of the process with these words names.
fn add_unjoined(
    alloc: Global,
    found: &mut Vec<Warning>,
    words: &[PlacedWord<'_>],
) -> Result<(), AllocError>
    ensures { OnOk result (found.new.items ≡ found.old.items ++ unjoined words.now) }
{
    let labels = labels(alloc, words)?;
    let named = heads(alloc, words, Mark::Join)?;
    let joined = NameSet::of(alloc, &named)?;
    add_missing(found, Suspicion::UnusedLabel, &labels, &joined)
}
