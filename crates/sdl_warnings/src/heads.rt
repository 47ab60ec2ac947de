//! Names in a list behind a keyword.

ghost use Rattle.std.specs.Prelude.{◌≡◌, ◌==◌, ◌&&◌, ◌++◌, IfOk, OnOk, map};
ghost use Rattle.sdl_warnings.specs.Heads.{after, head_at, head_value, heads, inner, inner_at, is_outside, nowhere, with_mark};

use crate::words::{mark_of, name_of};
use parse_expressions::PlacedWord;
use sdl_lex::Place;
use sdl_tree::Mark;
use std::alloc::{AllocError, Global};

/// A name, and where it is.
#[derive(Clone, Copy)]
pub struct Head<'t> {
    pub name: &'t str,
    pub place: Place,
}

/// Where the words up to some place have led: how many parentheses are open, whether that is in the list, and whether an
/// element of it begins.
#[derive(Clone, Copy)]
pub struct Spot {
    pub depth: usize,
    pub is_within: bool,
    pub begins: bool,
}

impl Spot {
    /// Outside of each list.
    pub const NOWHERE: Spot = Spot {
        depth: 0,
        is_within: false,
        begins: false,
    };

    /// Where a list begins.
    const BEGINNING: Spot = Spot {
        depth: 0,
        is_within: true,
        begins: true,
    };

    /// After this word, where lists begin with this mark. A semicolon ends them.
    pub fn after(self, list: Mark, word: PlacedWord<'_>) -> Spot
        ensures { result ≡ after list self word.entry }
    {
        match mark_of(word) {
            Some(mark) => self.with_mark(list, mark),
            None => Spot {
                depth: self.depth,
                is_within: self.is_within,
                begins: false,
            },
        }
    }

    /// Whether it is in a list, and in no parentheses.
    pub fn is_outside(self) -> bool
        ensures { result ≡ is_outside self }
    {
        self.is_within && self.depth == 0
    }

    #[tactic(auto, unfolding(parse_expressions::specs::Reading::same_mark))]
    fn with_mark(self, list: Mark, mark: Mark) -> Spot
        ensures { result ≡ with_mark list self mark }
    {
        if mark == Mark::Semicolon {
            Spot::NOWHERE
        } else if mark == list {
            Spot::BEGINNING
        } else if mark == Mark::Open {
            Spot {
                depth: self.depth.saturating_add(1),
                is_within: self.is_within,
                begins: false,
            }
        } else if mark == Mark::Close {
            Spot {
                depth: self.depth.saturating_sub(1),
                is_within: self.is_within,
                begins: false,
            }
        } else {
            Spot {
                depth: self.depth,
                is_within: self.is_within,
                begins: mark == Mark::Comma && self.is_outside(),
            }
        }
    }
}

/// The names with which the elements of lists begin that this mark begins.
pub fn heads<'t>(
    alloc: Global,
    words: &[PlacedWord<'t>],
    list: Mark,
) -> Result<Vec<Head<'t>>, AllocError>
    ensures { IfOk result (λ found. map head_value found.items ≡ heads list words.now) }
{
    let mut found = Vec::new(alloc);
    let mut spot = Spot::NOWHERE;
    for word in words {
        add_head(&mut found, spot, *word)?;
        spot = spot.after(list, *word);
    }
    Ok(found)
}

/// Adds the name that a word is, if an element begins there.
pub fn add_head<'t>(
    found: &mut Vec<Head<'t>>,
    spot: Spot,
    word: PlacedWord<'t>,
) -> Result<(), AllocError>
    ensures { OnOk result (map head_value found.new.items
        ≡ map head_value found.old.items ++ head_at spot word.entry) }
{
    if let Some(name) = name_of(word) {
        if spot.begins {
            found.push(Head {
                name,
                place: word.place,
            })?;
        }
    }
    Ok(())
}

/// The names in parentheses of lists that this mark begins.
pub fn inner<'t>(
    alloc: Global,
    words: &[PlacedWord<'t>],
    list: Mark,
) -> Result<Vec<Head<'t>>, AllocError>
    ensures { IfOk result (λ found. map head_value found.items ≡ inner list words.now) }
{
    let mut found = Vec::new(alloc);
    let mut spot = Spot::NOWHERE;
    for word in words {
        add_inner(&mut found, spot, *word)?;
        spot = spot.after(list, *word);
    }
    Ok(found)
}

/// Adds the name that a word is, if it is in parentheses of a list.
fn add_inner<'t>(
    found: &mut Vec<Head<'t>>,
    spot: Spot,
    word: PlacedWord<'t>,
) -> Result<(), AllocError>
    ensures { OnOk result (map head_value found.new.items
        ≡ map head_value found.old.items ++ inner_at spot word.entry) }
{
    if let Some(name) = name_of(word) {
        if spot.is_within && spot.depth > 0 {
            found.push(Head {
                name,
                place: word.place,
            })?;
        }
    }
    Ok(())
}
