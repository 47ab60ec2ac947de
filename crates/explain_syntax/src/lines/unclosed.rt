//! The word that opens what is still open at a place.

use crate::lines::opening::opened_by;
use crate::lines::words::{mark_of, words_of};
use parse_expressions::PlacedWord;
use sdl_lex::Place;
use sdl_tree::Mark;
use std::alloc::{AllocError, Global};

/// Where the last thing opens before a place that this word has to end, and that isn't ended before the place.
pub fn unclosed_before(
    alloc: Global,
    text: &[u8],
    place: Place,
    end: Mark,
) -> Result<Option<Place>, AllocError> {
    let Some(opening) = opened_by(end) else {
        return Ok(None);
    };
    let words = words_of(alloc, text)?;
    Ok(unclosed_among(&words, place, opening, end))
}

/// Among these words the last opening one before a place that no end follows.
fn unclosed_among(
    words: &[PlacedWord<'_>],
    place: Place,
    opening: Mark,
    end: Mark,
) -> Option<Place> {
    let mut ended = 0usize;
    for word in words.iter().rev() {
        let mark = mark_of(Some(*word));
        if word.place < place && mark == Some(end) {
            ended = ended.saturating_add(1);
        }
        if word.place < place && mark == Some(opening) {
            if ended == 0 {
                return Some(word.place);
            }
            ended = ended.saturating_sub(1);
        }
    }
    None
}
