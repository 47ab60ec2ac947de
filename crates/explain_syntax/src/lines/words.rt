//! The words of a text.

use parse_expressions::{PlacedWord, Word, placed_words};
use sdl_lex::lex;
use sdl_tree::Mark;
use std::alloc::{AllocError, Global};

/// The words of a text with their places; none if it has no tokens.
pub fn words_of<'t>(alloc: Global, text: &'t [u8]) -> Result<Vec<PlacedWord<'t>>, AllocError> {
    match lex(alloc, text) {
        Ok(tokens) => placed_words(alloc, text, tokens.as_slice()),
        Err(_) => Ok(Vec::new(alloc)),
    }
}

/// The keyword or mark that a word is.
pub fn mark_of(word: Option<PlacedWord<'_>>) -> Option<Mark> {
    match word?.word {
        Word::Fixed(mark, _) => Some(mark),
        _ => None,
    }
}

/// The name that a word is.
pub fn name_of<'t>(word: Option<PlacedWord<'t>>) -> Option<&'t str> {
    match word?.word {
        Word::Name(name) => Some(name),
        _ => None,
    }
}

/// Whether a word is a number.
pub fn is_number(word: Option<PlacedWord<'_>>) -> bool {
    matches!(
        word,
        Some(PlacedWord {
            word: Word::Number(..),
            ..
        })
    )
}
