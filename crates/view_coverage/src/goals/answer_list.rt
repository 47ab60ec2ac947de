//! The answers of all decisions.

use crate::goals::goal::AnswerGoal;
use crate::goals::scan::Scan;
use parse_expressions::placed_words;
use sdl_lex::lex;
use std::alloc::{AllocError, Global};

/// The answers of the decisions of a specification that has a system, in the order of its text.
pub fn answers_in(alloc: Global, text: &[u8]) -> Result<Vec<AnswerGoal>, AllocError> {
    let Ok(tokens) = lex(alloc, text) else {
        return Ok(Vec::new(alloc));
    };
    let words = placed_words(alloc, text, tokens.as_slice())?;
    let mut scan = Scan::new(alloc);
    for (word, token) in words.iter().zip(tokens.iter()) {
        scan.advance(alloc, text, *word, *token)?;
    }
    Ok(scan.found)
}
