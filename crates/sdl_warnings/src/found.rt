//! What is found in a specification.

ghost use Rattle.std.specs.Prelude.{◌≡◌, ◌++◌, IfOk, OnOk, map};
ghost use Rattle.sdl_tree.specs.Views.{tree_value};
ghost use Rattle.sdl_warnings.specs.Found.{AreWarnings, gathered};
ghost use Rattle.sdl_warnings.specs.Heads.{head_value};
ghost use Rattle.sdl_warnings.specs.Processes.{of_part, of_processes};

use crate::defined::Names;
use crate::heads::{Head, heads};
use crate::oddities::{add_oddities, oddities};
use crate::processes::process_end;
use crate::states::add_states;
use crate::suspicion::Warning;
use crate::timers::add_timers;
use crate::unused::add_unused;
use crate::variables::add_variables;
use parse_expressions::PlacedWord;
use sdl_tree::{Mark, Tree};
use std::alloc::{AllocError, Global};

/// What is suspicious in a specification with this tree and these words, in the order of the text.
pub fn warnings(
    alloc: Global,
    tree: &Tree,
    words: &[PlacedWord<'_>],
) -> Result<Vec<Warning>, AllocError>
    ensures { IfOk result (λ found. AreWarnings (tree_value tree.now) words.now found.items) }
{
    let mut found = gathered(alloc, tree, words)?;
    found.sort_by_key(|warning| (warning.place.line, warning.place.column))?;
    Ok(found)
}

/// The same, kind by kind.
fn gathered(
    alloc: Global,
    tree: &Tree,
    words: &[PlacedWord<'_>],
) -> Result<Vec<Warning>, AllocError>
    ensures { IfOk result (λ found. found.items ≡ gathered (tree_value tree.now) words.now) }
{
    let mut found = Vec::new(alloc);
    let names = Names::of(alloc, tree)?;
    add_unused(alloc, &mut found, &names, words)?;
    let constants = heads(alloc, words, Mark::Synonym)?;
    add_processes(alloc, &mut found, &constants, words)?;
    let oddities = oddities(alloc, tree, words)?;
    add_oddities(&mut found, &oddities)?;
    Ok(found)
}

/// Adds what is suspicious in each process of a text that defines these constants.
fn add_processes(
    alloc: Global,
    found: &mut Vec<Warning>,
    constants: &[Head<'_>],
    words: &[PlacedWord<'_>],
) -> Result<(), AllocError>
    ensures { OnOk result (found.new.items
        ≡ found.old.items ++ of_processes (map head_value constants.now) words.now) }
{
    let mut from = 0;
    while from < words.len() {
        let end = process_end(words, from);
        add_process(alloc, found, constants, &words[from..end])?;
        from = end + 1;
    }
    Ok(())
}

/// Adds what is suspicious in a process with these words.
fn add_process(
    alloc: Global,
    found: &mut Vec<Warning>,
    constants: &[Head<'_>],
    words: &[PlacedWord<'_>],
) -> Result<(), AllocError>
    ensures { OnOk result (found.new.items ≡ found.old.items ++ of_part (map head_value constants.now) words.now) }
{
    add_states(alloc, found, words)?;
    add_variables(alloc, found, words)?;
    add_timers(alloc, found, constants, words)
}
