//! Names that nobody uses.

ghost use Rattle.std.specs.Prelude.{◌≡◌, ◌++◌, ◌||◌, ◌&&◌, ℕ, List, IfOk, OnOk, map};
ghost use Rattle.sdl_warnings.specs.Sets.{has};
ghost use Rattle.sdl_warnings.specs.Unused.{defined_value, is_again, unused, unused_by};
ghost use Rattle.sdl_warnings.specs.Words.{is_name};

use crate::defined::{Defined, Names};
use crate::name_set::NameSet;
use crate::suspicion::Warning;
use crate::words::name_of;
use parse_expressions::PlacedWord;
use std::alloc::{AllocError, Global};

/// Adds the names that are defined and are nowhere else in the text.
pub fn add_unused(
    alloc: Global,
    found: &mut Vec<Warning>,
    names: &Names<'_>,
    words: &[PlacedWord<'_>],
) -> Result<(), AllocError>
    ensures { OnOk result (found.new.items
        ≡ found.old.items ++ unused words.now (map defined_value names.now.all.items)) }
{
    let again = repeated(alloc, words)?;
    for defined in &names.all {
        add_if_once(found, &again, *defined)?;
    }
    Ok(())
}

/// Adds a name that isn't among those that are there again.
fn add_if_once(
    found: &mut Vec<Warning>,
    again: &NameSet<'_>,
    defined: Defined<'_>,
) -> Result<(), AllocError>
    ensures { OnOk result (found.new.items ≡ found.old.items
        ++ unused_by (has again.now (defined_value defined.entry).name) (defined_value defined.entry)) }
{
    if !again.has(defined.name) {
        found.push(Warning {
            suspicion: defined.unused,
            place: defined.place,
        })?;
    }
    Ok(())
}

/// The names that are more than once among words.
pub fn repeated<'t>(alloc: Global, words: &[PlacedWord<'t>]) -> Result<NameSet<'t>, AllocError>
    ensures { IfOk result (λ names. (text : List ℕ) → has names text ≡ is_again words.now text) }
{
    let mut once = NameSet::new(alloc);
    let mut again = NameSet::new(alloc);
    for word in words {
        count_name(&mut once, &mut again, *word)?;
    }
    Ok(again)
}

/// Adds a name to those that were there once, or more often.
fn count_name<'t>(
    once: &mut NameSet<'t>,
    again: &mut NameSet<'t>,
    word: PlacedWord<'t>,
) -> Result<(), AllocError>
    ensures once { OnOk result ((text : List ℕ) → has once.new text ≡ (is_name text word.entry || has once.old text)) }
    ensures again { OnOk result ((text : List ℕ) → has again.new text
        ≡ ((is_name text word.entry && has once.old text) || has again.old text)) }
{
    if let Some(name) = name_of(word) {
        if once.has(name) {
            again.add(name)?;
        } else {
            once.add(name)?;
        }
    }
    Ok(())
}
