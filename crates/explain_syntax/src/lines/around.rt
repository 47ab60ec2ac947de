//! The words around a place at which no reading goes on.

use crate::lines::words::{mark_of, words_of};
use parse_expressions::{PlacedWord, Word};
use sdl_lex::Place;
use sdl_tree::Mark;
use std::alloc::{AllocError, Global};

/// The words around a place. Each is None if the text has no word there.
#[derive(Clone, Copy)]
pub struct Around<'t> {
    /// The word three words before the place.
    pub earliest: Option<PlacedWord<'t>>,
    /// The word two words before the place.
    pub earlier: Option<PlacedWord<'t>>,
    pub before: Option<PlacedWord<'t>>,
    pub at: Option<PlacedWord<'t>>,
    pub after: Option<PlacedWord<'t>>,
    /// The last keyword before the place that begins a definition, a stimulus or an action.
    pub leading: Option<Mark>,
}

impl<'t> Around<'t> {
    /// The words around a place of a text.
    pub fn of(alloc: Global, text: &'t [u8], place: Place) -> Result<Around<'t>, AllocError> {
        let words = words_of(alloc, text)?;
        Ok(Around::among(&words, place))
    }

    fn among(words: &[PlacedWord<'t>], place: Place) -> Around<'t> {
        let mut around = Around {
            earliest: None,
            earlier: None,
            before: None,
            at: None,
            after: None,
            leading: None,
        };
        for word in words {
            if around.at.is_some() {
                around.after = Some(*word);
                return around;
            }
            if word.place == place {
                around.at = Some(*word);
            } else {
                around.earliest = around.earlier;
                around.earlier = around.before;
                around.before = Some(*word);
                around.leading = leading_mark(*word).or(around.leading);
            }
        }
        around
    }

    /// Whether these two marks follow one another here, without a blank between them.
    pub fn has_pair(&self, first: Mark, second: Mark) -> bool {
        is_pair(self.earlier, self.before, first, second)
            || is_pair(self.before, self.at, first, second)
            || is_pair(self.at, self.after, first, second)
    }

    /// Whether the word before the place is in the line of the place.
    pub fn goes_on(&self) -> bool {
        match (self.before, self.at) {
            (Some(before), Some(at)) => before.place.line == at.place.line,
            _ => false,
        }
    }

    /// Whether letters follow a number at once at the place.
    pub fn has_unit(&self) -> bool {
        match (self.before, self.at) {
            (Some(before), Some(at)) => is_unit(before, at),
            _ => false,
        }
    }
}

/// Whether a word is a name, and follows a number without a blank.
fn is_unit(before: PlacedWord<'_>, at: PlacedWord<'_>) -> bool {
    match (before.word, at.word) {
        (Word::Number(_, digits), Word::Name(_)) => {
            before.place.line == at.place.line
                && before.place.column.saturating_add(digits.len()) == at.place.column
        }
        _ => false,
    }
}

fn is_pair(
    one: Option<PlacedWord<'_>>,
    other: Option<PlacedWord<'_>>,
    first: Mark,
    second: Mark,
) -> bool {
    mark_of(one) == Some(first) && mark_of(other) == Some(second) && are_joined(one, other)
}

/// Whether a mark of one byte ends where another word begins.
fn are_joined(one: Option<PlacedWord<'_>>, other: Option<PlacedWord<'_>>) -> bool {
    match (one, other) {
        (Some(one), Some(other)) => {
            one.place.line == other.place.line
                && one.place.column.saturating_add(1) == other.place.column
        }
        _ => false,
    }
}

/// The keyword that a word is, if it begins a definition, a stimulus or an action.
fn leading_mark(word: PlacedWord<'_>) -> Option<Mark> {
    let mark = mark_of(Some(word))?;
    if LEADING.iter().any(|other| *other == mark) {
        Some(mark)
    } else {
        None
    }
}

static LEADING: [Mark; 29] = [
    Mark::System,
    Mark::Block,
    Mark::Process,
    Mark::Channel,
    Mark::Connect,
    Mark::Connection,
    Mark::Signal,
    Mark::SignalList,
    Mark::SignalSet,
    Mark::Synonym,
    Mark::Dcl,
    Mark::Fpar,
    Mark::Timer,
    Mark::Start,
    Mark::State,
    Mark::Input,
    Mark::Save,
    Mark::Provided,
    Mark::Task,
    Mark::Output,
    Mark::Set,
    Mark::Reset,
    Mark::Create,
    Mark::Decision,
    Mark::Else,
    Mark::NextState,
    Mark::Stop,
    Mark::Join,
    Mark::With,
];
