//! The advice on a refusal.

use std::alloc::{AllocError, Global};

/// One line that says which rule is broken and what to do about it.
#[derive(Drop)]
pub struct Advice {
    pub text: String,
}

impl Advice {
    /// A sentence of its own.
    pub fn alone(alloc: Global, sentence: &str) -> Result<Advice, AllocError> {
        Ok(Advice {
            text: String::from_str(alloc, sentence)?,
        })
    }

    /// A sentence about a word, which comes first, in quotes.
    pub fn about(alloc: Global, word: &str, sentence: &str) -> Result<Advice, AllocError> {
        Ok(Advice {
            text: format!(in alloc; "`{word}` {sentence}")?,
        })
    }
}
