//! Transitions that never end.

ghost use Rattle.std.specs.Prelude.{◌≡◌, ◌<◌, ◌+◌, ◌++◌, [], OnOk, drop, length, reverse, take};
ghost use Rattle.sdl_warnings.specs.Loops.{leads_back, loop_at, loops};

use crate::back::is_closed;
use crate::suspicion::{Behaviour, Oddity};
use crate::words::{is_mark, name_of};
use parse_expressions::PlacedWord;
use sdl_tree::Mark;
use std::alloc::AllocError;

/// Adds each `join` that leads back to its label over words of which none leads out.
pub fn add_loops(found: &mut Vec<Oddity>, words: &[PlacedWord<'_>]) -> Result<(), AllocError>
    ensures { OnOk result (found.new.items ≡ found.old.items ++ loops [] words.now) }
{
    let mut at = 0;
    while at < words.len() {
        add_if_loop(found, words, at, words[at])?;
        at += 1;
    }
    Ok(())
}

/// Adds the word at `at`, if it is a `join` that leads back.
fn add_if_loop(
    found: &mut Vec<Oddity>,
    words: &[PlacedWord<'_>],
    at: usize,
    word: PlacedWord<'_>,
) -> Result<(), AllocError>
    requires { at < length words.now }
    ensures { OnOk result (found.new.items ≡ found.old.items
        ++ loop_at (reverse (take at words.now)) word.entry (drop (at + 1) words.now)) }
{
    if is_mark(word, Mark::Join) && leads_back(words, at) {
        found.push(Oddity {
            behaviour: Behaviour::EndlessLoop,
            place: word.place,
        })?;
    }
    Ok(())
}

/// Whether from the label that comes after the word at `at` nothing leads out before that word.
fn leads_back(words: &[PlacedWord<'_>], at: usize) -> bool
    requires { at < length words.now }
    ensures { result ≡ leads_back (reverse (take at words.now)) (drop (at + 1) words.now) }
{
    match &words[at + 1..] {
        [label, ..] => match name_of(*label) {
            Some(label) => is_closed(words, at, label),
            None => false,
        },
        [] => false,
    }
}
