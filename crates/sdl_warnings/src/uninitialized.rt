//! Variables without an initial value.

ghost use Rattle.std.specs.Prelude.{◌≡◌, ◌++◌, ◌&&◌, IfOk, OnOk, map, not, true};
ghost use Rattle.sdl_warnings.specs.Heads.{head_value, named_at, nowhere};
ghost use Rattle.sdl_warnings.specs.Unset.{has_initial, uninitialized};
ghost use Rattle.sdl_warnings.specs.Words.{name_in};

use crate::heads::{Head, Spot};
use crate::words::{is_mark, name_of};
use parse_expressions::PlacedWord;
use sdl_tree::Mark;
use std::alloc::{AllocError, Global};

/// So many variables with one sort are looked at, so that a long list doesn't take long.
const MOST_LOOKED_AT: usize = 100;

/// The variables without an initial value that are defined in these words.
pub fn uninitialized<'t>(
    alloc: Global,
    words: &[PlacedWord<'t>],
) -> Result<Vec<Head<'t>>, AllocError>
    ensures { IfOk result (λ found. map head_value found.items ≡ uninitialized nowhere words.now) }
{
    let mut found = Vec::new(alloc);
    let mut spot = Spot::NOWHERE;
    let mut rest = words;
    'rest: while let [word, after @ ..] = rest {
        if spot.begins && !has_initial(after, MOST_LOOKED_AT) {
            add_name(&mut found, *word)?;
        }
        spot = spot.after(Mark::Dcl, *word);
        rest = after;
    }
    Ok(found)
}

/// Adds the name that a word is, if it is one.
fn add_name<'t>(found: &mut Vec<Head<'t>>, word: PlacedWord<'t>) -> Result<(), AllocError>
    ensures { OnOk result (map head_value found.new.items
        ≡ map head_value found.old.items ++ named_at true word.entry.place (name_in word.entry)) }
{
    if let Some(name) = name_of(word) {
        found.push(Head {
            name,
            place: word.place,
        })?;
    }
    Ok(())
}

/// Whether a variable has an initial value that comes before these words: other variables of its group, their sort, and
/// what comes then. So many of those variables are looked at.
fn has_initial(words: &[PlacedWord<'_>], most: usize) -> bool
    ensures { result ≡ has_initial most words.now }
{
    match words {
        [one, two, after @ ..] => {
            if is_mark(*one, Mark::Comma) {
                most == 0 || has_initial(after, most - 1)
            } else {
                is_mark(*two, Mark::Assign)
            }
        }
        _ => false,
    }
}
