//! Advice about the word that is marked.

use crate::lines::advice::Advice;
use crate::lines::excerpt::Excerpt;
use std::alloc::{AllocError, Global};
use std::str;

/// A sentence about the word that is marked, if there is one.
pub fn about_marked(
    alloc: Global,
    shown: &Option<Excerpt<'_>>,
    sentence: &str,
) -> Result<Advice, AllocError> {
    match marked_word(shown) {
        Some(word) => Advice::about(alloc, word, sentence),
        None => Advice::alone(alloc, sentence),
    }
}

/// The marked bytes as a word, if they are in ASCII.
pub fn marked_word<'t>(shown: &Option<Excerpt<'t>>) -> Option<&'t str> {
    let Some(excerpt) = shown else {
        return None;
    };
    let bytes = excerpt.behind.get(..excerpt.width)?;
    if bytes.is_ascii() {
        str::from_utf8(bytes).ok()
    } else {
        None
    }
}
