//! A cursor over the words of a text.

ghost use Rattle.std.specs.Prelude.{◌≡◌, length, map, option_map};
ghost use Rattle.parse_expressions.specs.PlacedWord.{word_of_placed};
ghost use Rattle.parse_expressions.specs.Reading as spec;
ghost use Rattle.parse_expressions.specs.Reads.{Reads};
ghost use Rattle.sdl_tree.specs.Views.{name_value, number_value};

use crate::fault::{Fault, Wanted};
use crate::word::{PlacedWord, Word};
use sdl_lex::Place;
use sdl_tree::{Mark, Name, Number, Spelling};
use std::alloc::Global;
use std::marker::Model;

/// The words that are not read yet. The first of them, or the end of the text, is the front.
#[derive(Drop)]
pub struct Cursor<'c, 't> {
    words: &'c [PlacedWord<'t>],
}

impl<'c, 't> Model for Cursor<'c, 't> {
    ghost use Rattle.std.specs.Prelude.{map};
    ghost use Rattle.sdl_tree.specs.Words.{Words};
    ghost use Rattle.parse_expressions.specs.PlacedWord.{word_of_placed};

    ghost Value = { Words };

    ghost view = { λ c. map word_of_placed c.words.now };
}

impl<'c, 't> Cursor<'c, 't> {
    /// The cursor before all words of a text.
    pub fn new(words: &'c [PlacedWord<'t>]) -> Cursor<'c, 't>
        ensures { result ≡ map word_of_placed words.now }
    {
        Cursor { words }
    }

    /// A second cursor at the same place, to look ahead with.
    pub fn again(&self) -> Cursor<'c, 't>
        ensures { result ≡ self.now }
    {
        Cursor { words: self.words }
    }

    /// Gives the word that stands next. None at the end of the text.
    #[tactic(auto, unfolding(crate::specs::Reading::front))]
    pub fn front(&self) -> Option<PlacedWord<'t>>
        ensures { option_map word_of_placed result ≡ spec.front self.now }
    {
        match self.words {
            [first, ..] => Some(*first),
            [] => None,
        }
    }

    /// The place of what stands next, if not the end of the text.
    #[tactic(auto, unfolding(crate::specs::Reading::place_at))]
    pub fn place(&self) -> Option<Place>
        ensures { result ≡ spec.place_at self.now }
    {
        match self.front() {
            Some(next) => Some(next.place),
            None => None,
        }
    }

    /// How many words are left.
    pub fn left(&self) -> usize
        ensures { result ≡ length self.now }
    {
        self.words.len()
    }

    /// Goes past one word.
    #[tactic(auto, unfolding(crate::specs::Reading::rest))]
    pub fn pass(&mut self)
        ensures { self.new ≡ spec.rest self.old }
    {
        if let [_, rest @ ..] = self.words {
            self.words = rest;
        }
    }

    /// The mark that stands next, if one does.
    #[tactic(auto, unfolding(crate::specs::Reading::mark_at))]
    pub fn mark(&self) -> Option<Mark>
        ensures { result ≡ spec.mark_at self.now }
    {
        match self.front()?.word {
            Word::Fixed(mark, _) => Some(mark),
            _ => None,
        }
    }

    /// Whether the mark stands next.
    #[tactic(auto, unfolding(crate::specs::Reading::sees, crate::specs::Reading::same_mark))]
    pub fn sees(&self, mark: Mark) -> bool
        ensures { result ≡ spec.sees mark self.now }
    {
        match self.front() {
            Some(
                PlacedWord {
                    word: Word::Fixed(next, _),
                    ..
                },
            ) => next == mark,
            _ => false,
        }
    }

    /// Whether a name stands next.
    #[tactic(auto, unfolding(crate::specs::Reading::sees_name))]
    pub fn sees_name(&self) -> bool
        ensures { result ≡ spec.sees_name self.now }
    {
        matches!(
            self.front(),
            Some(PlacedWord {
                word: Word::Name(_),
                ..
            })
        )
    }

    /// Whether a number stands next.
    #[tactic(auto, unfolding(crate::specs::Reading::sees_number))]
    pub fn sees_number(&self) -> bool
        ensures { result ≡ spec.sees_number self.now }
    {
        matches!(
            self.front(),
            Some(PlacedWord {
                word: Word::Number(..),
                ..
            })
        )
    }

    /// Passes this mark, and tells how it is spelled and where it stands.
    #[tactic(auto, unfolding(crate::specs::Reading::expect, crate::specs::Reading::same_mark))]
    pub fn expect(&mut self, mark: Mark) -> Result<Spelling, Fault>
        ensures { Reads (λ s. s) (spec.expect mark self.old) result self.new }
    {
        match self.front() {
            Some(
                PlacedWord {
                    word: Word::Fixed(next, case),
                    place,
                },
            ) => {
                if next == mark {
                    self.pass();
                    return Ok(Spelling { case, place });
                }
                Err(Fault::Expected(Wanted::Mark(mark)))
            }
            _ => Err(Fault::Expected(Wanted::Mark(mark))),
        }
    }

    /// Passes a name.
    #[tactic(auto, unfolding(crate::specs::Reading::name))]
    pub fn name(&mut self, alloc: Global) -> Result<Name, Fault>
        ensures { Reads name_value (spec.name self.old) result self.new }
    {
        match self.front() {
            Some(
                PlacedWord {
                    word: Word::Name(text),
                    place,
                },
            ) => {
                let text = String::from_str(alloc, text)?;
                self.pass();
                Ok(Name { text, place })
            }
            _ => Err(Fault::Expected(Wanted::Name)),
        }
    }

    /// Passes a number.
    #[tactic(auto, unfolding(crate::specs::Reading::number))]
    pub fn number(&mut self, alloc: Global) -> Result<Number, Fault>
        ensures { Reads number_value (spec.number self.old) result self.new }
    {
        match self.front() {
            Some(
                PlacedWord {
                    word: Word::Number(value, digits),
                    place,
                },
            ) => {
                let text = String::from_str(alloc, digits)?;
                self.pass();
                let digits = Name { text, place };
                Ok(Number { value, digits })
            }
            _ => Err(Fault::Expected(Wanted::Number)),
        }
    }

    /// Passes a character string.
    #[tactic(auto, unfolding(crate::specs::Reading::text))]
    pub fn text(&mut self) -> Result<(), Fault>
        ensures { Reads (λ _. tt) (spec.text self.old) result self.new }
    {
        match self.front() {
            Some(
                PlacedWord {
                    word: Word::Text(_),
                    ..
                },
            ) => {
                self.pass();
                Ok(())
            }
            _ => Err(Fault::Expected(Wanted::Text)),
        }
    }
}
