//! The name after the word that opens what an `end..` word ends.

use crate::lines::words::{mark_of, words_of};
use parse_expressions::{PlacedWord, Word};
use sdl_lex::Place;
use sdl_tree::Mark;
use std::alloc::{AllocError, Global};

/// Where the name is that has to be repeated at a place, after an `end..` word. As nothing that has a name is in
/// another of its kind, the word that opens it is the last of its kind.
pub fn opening_of(
    alloc: Global,
    text: &[u8],
    place: Place,
    name: &str,
) -> Result<Option<Place>, AllocError> {
    let words = words_of(alloc, text)?;
    Ok(opening_in(&words, place, name))
}

/// Among these words the name after the last opening word of the kind that the word before a place ends.
fn opening_in(words: &[PlacedWord<'_>], place: Place, name: &str) -> Option<Place> {
    let opening = opened_by(mark_before(words, place)?)?;
    let mut found = None;
    let mut is_open = false;
    for word in words {
        if word.place == place {
            return found;
        }
        match word.word {
            Word::Fixed(mark, _) => is_open = mark == opening || is_open && mark == Mark::Comma,
            Word::Name(text) if is_open && text == name => found = Some(word.place),
            _ => {}
        }
    }
    found
}

/// The keyword or mark before a place.
fn mark_before(words: &[PlacedWord<'_>], place: Place) -> Option<Mark> {
    let mut before = None;
    for word in words {
        if word.place == place {
            return mark_of(before);
        }
        before = Some(*word);
    }
    None
}

/// The word that opens what this one ends.
pub fn opened_by(end: Mark) -> Option<Mark> {
    match end {
        Mark::EndSystem => Some(Mark::System),
        Mark::EndBlock => Some(Mark::Block),
        Mark::EndProcess => Some(Mark::Process),
        Mark::EndChannel => Some(Mark::Channel),
        Mark::EndState => Some(Mark::State),
        Mark::EndConnection => Some(Mark::Connection),
        Mark::EndDecision => Some(Mark::Decision),
        Mark::Close => Some(Mark::Open),
        _ => None,
    }
}
