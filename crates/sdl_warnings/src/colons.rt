//! Names before a colon.

ghost use Rattle.std.specs.Prelude.{◌≡◌, ◌++◌, IfOk, None, OnOk, map};
ghost use Rattle.sdl_warnings.specs.Colons.{depth_after, labels, named};
ghost use Rattle.sdl_warnings.specs.Heads.{head_value};

use crate::heads::Head;
use crate::words::{is_mark, name_of};
use parse_expressions::PlacedWord;
use sdl_tree::Mark;
use std::alloc::{AllocError, Global};

/// The names before a colon that is in no parentheses: labels. In parentheses a colon is that of a range.
pub fn labels<'t>(alloc: Global, words: &[PlacedWord<'t>]) -> Result<Vec<Head<'t>>, AllocError>
    ensures { IfOk result (λ found. map head_value found.items ≡ labels 0 None words.now) }
{
    let mut found = Vec::new(alloc);
    let mut depth: usize = 0;
    let mut before = None;
    for word in words {
        if depth == 0 && is_mark(*word, Mark::Colon) {
            add_name(&mut found, before)?;
        }
        depth = depth_after(depth, *word);
        before = Some(*word);
    }
    Ok(found)
}

/// Adds the name that a word is, if it is one.
fn add_name<'t>(found: &mut Vec<Head<'t>>, word: Option<PlacedWord<'t>>) -> Result<(), AllocError>
    ensures { OnOk result (map head_value found.new.items ≡ map head_value found.old.items ++ named word.entry) }
{
    let Some(word) = word else {
        return Ok(());
    };
    if let Some(name) = name_of(word) {
        found.push(Head {
            name,
            place: word.place,
        })?;
    }
    Ok(())
}

/// How many parentheses are open after a word.
pub fn depth_after(depth: usize, word: PlacedWord<'_>) -> usize
    ensures { result ≡ depth_after depth word.entry }
{
    if is_mark(word, Mark::Open) {
        depth.saturating_add(1)
    } else if is_mark(word, Mark::Close) {
        depth.saturating_sub(1)
    } else {
        depth
    }
}
