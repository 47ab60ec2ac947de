//! Names that tasks give a value.

ghost use Rattle.std.specs.Prelude.{◌≡◌, ◌++◌, IfOk, None, OnOk, map};
ghost use Rattle.sdl_warnings.specs.Colons.{named};
ghost use Rattle.sdl_warnings.specs.Heads.{head_value};
ghost use Rattle.sdl_warnings.specs.Unset.{assigned, fresh, is_in_expression};

use crate::heads::Head;
use crate::words::{is_mark, is_name, name_of};
use parse_expressions::PlacedWord;
use sdl_tree::Mark;
use std::alloc::{AllocError, Global};

/// The names before `:=` that aren't in the expression after it: they get a value that doesn't need an earlier one.
pub fn assigned<'t>(alloc: Global, words: &[PlacedWord<'t>]) -> Result<Vec<Head<'t>>, AllocError>
    ensures { IfOk result (λ found. map head_value found.items ≡ assigned None words.now) }
{
    let mut found = Vec::new(alloc);
    let mut before = None;
    let mut rest = words;
    'rest: while let [word, after @ ..] = rest {
        if is_mark(*word, Mark::Assign) {
            add_fresh(&mut found, before, after)?;
        }
        before = Some(*word);
        rest = after;
    }
    Ok(found)
}

/// Adds the name that a word is, if it is one, and isn't in the expression with which these words begin.
fn add_fresh<'t>(
    found: &mut Vec<Head<'t>>,
    word: Option<PlacedWord<'t>>,
    after: &[PlacedWord<'_>],
) -> Result<(), AllocError>
    ensures { OnOk result (map head_value found.new.items
        ≡ map head_value found.old.items ++ fresh (named word.entry) after.now) }
{
    let Some(word) = word else {
        return Ok(());
    };
    if let Some(name) = name_of(word) {
        if !is_in_expression(name, after) {
            found.push(Head {
                name,
                place: word.place,
            })?;
        }
    }
    Ok(())
}

/// Whether a name is in the expression with which these words begin, up to a comma or a semicolon.
fn is_in_expression(name: &str, words: &[PlacedWord<'_>]) -> bool
    ensures { result ≡ is_in_expression name.now words.now }
{
    for word in words {
        if is_mark(*word, Mark::Comma) || is_mark(*word, Mark::Semicolon) {
            return false;
        }
        if is_name(*word, name) {
            return true;
        }
    }
    false
}
