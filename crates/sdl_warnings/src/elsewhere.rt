//! Names that stand somewhere else than as signals.

ghost use Rattle.std.specs.Prelude.{◌≡◌, ◌++◌, IfOk, OnOk, map, not};
ghost use Rattle.sdl_warnings.specs.Heads.{head_value, named_at};
ghost use Rattle.sdl_warnings.specs.Signals.{elsewhere, is_head, lists_after, outside};
ghost use Rattle.sdl_warnings.specs.Words.{name_in};

use crate::heads::{Head, Spot};
use crate::words::name_of;
use parse_expressions::PlacedWord;
use sdl_tree::Mark;
use std::alloc::{AllocError, Global};

/// Where the words up to some place have led in the lists that name signals.
#[derive(Clone, Copy)]
pub struct Lists {
    /// Of signals that are defined.
    pub signals: Spot,
    pub outputs: Spot,
    /// Of paths of channels.
    pub paths: Spot,
    pub inputs: Spot,
    pub saves: Spot,
}

/// The names that begin no element of a list of signals, outputs, paths, inputs or saves.
pub fn elsewhere<'t>(alloc: Global, words: &[PlacedWord<'t>]) -> Result<Vec<Head<'t>>, AllocError>
    ensures { IfOk result (λ found. map head_value found.items ≡ elsewhere outside words.now) }
{
    let mut found = Vec::new(alloc);
    let mut lists = Lists::OUTSIDE;
    for word in words {
        add_name(&mut found, lists, *word)?;
        lists = lists.after(*word);
    }
    Ok(found)
}

/// Adds the name that a word is, if it begins no element there.
fn add_name<'t>(
    found: &mut Vec<Head<'t>>,
    lists: Lists,
    word: PlacedWord<'t>,
) -> Result<(), AllocError>
    ensures { OnOk result (map head_value found.new.items
        ≡ map head_value found.old.items
        ++ named_at (not (is_head lists)) word.entry.place (name_in word.entry)) }
{
    if let Some(name) = name_of(word) {
        if !lists.is_head() {
            found.push(Head {
                name,
                place: word.place,
            })?;
        }
    }
    Ok(())
}

impl Lists {
    const OUTSIDE: Lists = Lists {
        signals: Spot::NOWHERE,
        outputs: Spot::NOWHERE,
        paths: Spot::NOWHERE,
        inputs: Spot::NOWHERE,
        saves: Spot::NOWHERE,
    };

    fn after(self, word: PlacedWord<'_>) -> Lists
        ensures { result ≡ lists_after self word.entry }
    {
        Lists {
            signals: self.signals.after(Mark::Signal, word),
            outputs: self.outputs.after(Mark::Output, word),
            paths: self.paths.after(Mark::With, word),
            inputs: self.inputs.after(Mark::Input, word),
            saves: self.saves.after(Mark::Save, word),
        }
    }

    /// Whether an element of one of them begins.
    fn is_head(self) -> bool
        ensures { result ≡ is_head self }
    {
        self.signals.begins
            || self.outputs.begins
            || self.paths.begins
            || self.inputs.begins
            || self.saves.begins
    }
}
