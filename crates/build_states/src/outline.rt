//! In which state lists of a process each name stands. It decides which states have the same parts.

ghost use Rattle.std.specs.Prelude.{◌≡◌, ℕ, List, [], IfOk, OnOk, if◌then◌else◌, map};
ghost use Rattle.std.specs.Str.{bytes_eq};
ghost use Rattle.build_states.specs.Listed.{part_value};
ghost use Rattle.build_states.specs.Outlined.{ends_at, seen_in, with_names, with_states, with_turn};
ghost use Rattle.build_states.specs.Shared.{seen_of, states_listed};
ghost use Rattle.build_states.specs.Turned.{turns_of};
ghost use Rattle.sdl_tree.specs.Views.{names_value, states_value};

use crate::stimuli::Part;
use indexmap::IndexMap;
use sdl_tree::{Name, States};
use std::alloc::{AllocError, Global};
use std::marker::Model;

/// A name stands in the state list of a part.
#[derive(Clone, Copy, PartialEq, Eq, Hash)]
pub struct Turn {
    pub part: usize,
    /// Whether the part has an asterisk, and the list what it leaves out.
    pub is_left_out: bool,
    /// How many parts with an asterisk stand before this part.
    pub until: usize,
    /// How many of them stand before the next part.
    pub from: usize,
}

/// Where each name stands, in the order of the text.
#[derive(Drop)]
pub struct Turns<'t> {
    by_name: IndexMap<&'t str, Vec<Turn>>,
}

impl<'t> Model for Turns<'t> {
    ghost use Rattle.std.specs.Prelude.{ℕ, List, map};
    ghost use Rattle.build_states.specs.Turned.{entry_kept};
    ghost use Rattle.build_states.specs.declared.outline.Turn.{Turn};

    ghost Value = { List (List ℕ × List Turn) };

    ghost view = { λ turns. map entry_kept turns.by_name.entries };
}

impl<'t> Turns<'t> {
    /// No name stands anywhere.
    fn new(alloc: Global) -> Self
        ensures { result ≡ [] }
    {
        Turns {
            by_name: IndexMap::new(alloc),
        }
    }

    /// Where this name stands.
    pub fn get(&self, text: &str) -> &[Turn]
        ensures { result.now ≡ turns_of self.now text.now }
    {
        match self.by_name.get(text) {
            None => &[],
            Some(turns) => turns,
        }
    }

    /// Adds where these names stand, each once.
    fn add_names(&mut self, alloc: Global, names: &'t [Name], turn: Turn) -> Result<(), AllocError>
        ensures { OnOk result ((text : List ℕ) → turns_of self.new text
            ≡ with_names text turn (turns_of self.old text) (names_value names.now)) }
    {
        for name in names {
            self.add(alloc, name.text.as_str(), turn)?;
        }
        Ok(())
    }

    fn add(&mut self, alloc: Global, name: &'t str, turn: Turn) -> Result<(), AllocError>
        ensures { OnOk result ((text : List ℕ) → turns_of self.new text
            ≡ (if bytes_eq text name.now then with_turn (turns_of self.old text) turn else turns_of self.old text)) }
    {
        let turns = self.by_name.swap_remove(name).unwrap_or(Vec::new(alloc));
        let turns = pushed(turns, turn)?;
        self.by_name.insert(name, turns)?;
        Ok(())
    }
}

/// These, and one of a part behind them, once.
fn pushed(turns: Vec<Turn>, turn: Turn) -> Result<Vec<Turn>, AllocError>
    ensures { IfOk result (λ pushed. pushed.items ≡ with_turn turns.items turn) }
{
    let mut turns = turns;
    if !ends_at(&turns, turn.part) {
        turns.push(turn)?;
    }
    Ok(turns)
}

fn ends_at(turns: &[Turn], part: usize) -> bool
    ensures { result ≡ ends_at turns.now part }
{
    match turns.last() {
        None => false,
        Some(turn) => turn.part == part,
    }
}

/// The state lists of a process.
pub struct Outline<'t> {
    /// The parts with an asterisk.
    pub stars: Vec<usize>,
    pub turns: Turns<'t>,
}

/// Written out, so that it is proved here, and not anew in each crate that drops one.
impl<'t> Drop for Outline<'t> {
    fn drop(self) {
        let Outline { stars: _, turns: _ } = self;
    }
}

impl<'t> Outline<'t> {
    /// The state lists of these parts.
    pub fn of(alloc: Global, parts: &[Part<'t>]) -> Result<Self, AllocError>
        ensures { IfOk result (λ outline. (text : List ℕ) →
            seen_of outline text ≡ seen_in text (states_listed (map part_value parts.now))) }
    {
        let mut outline = Outline {
            stars: Vec::new(alloc),
            turns: Turns::new(alloc),
        };
        for (number, part) in parts.iter().enumerate() {
            outline.add(alloc, number, part.states)?;
        }
        Ok(outline)
    }

    fn add(&mut self, alloc: Global, part: usize, states: &'t States) -> Result<(), AllocError>
        ensures { OnOk result ((text : List ℕ) →
            seen_of self.new text ≡ with_states text part (seen_of self.old text) (states_value states.now)) }
    {
        let until = self.stars.len();
        match states {
            States::Named(names) => {
                let turn = Turn {
                    part,
                    is_left_out: false,
                    until,
                    from: until,
                };
                self.turns.add_names(alloc, names, turn)
            }
            States::All { except, .. } => {
                self.stars.push(part)?;
                let turn = Turn {
                    part,
                    is_left_out: true,
                    until,
                    from: self.stars.len(),
                };
                self.turns.add_names(alloc, except, turn)
            }
        }
    }
}
