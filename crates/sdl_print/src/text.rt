//! The text that is written, word by word.

ghost use Rattle.std.specs.Prelude.{◌≡◌, [], string_bytes, OnOk};
ghost use Rattle.sdl_print.specs.Wrote.{Wrote, decimal_words, mark_words, spelled_words};

use sdl_tree::Mark;
use std::alloc::{AllocError, Global};
use std::marker::Model;

/// The text that was written so far.
#[derive(Drop)]
pub struct Text {
    written: String,
}

impl Model for Text {
    ghost use Rattle.std.specs.Prelude.{ℕ, List, string_bytes};

    ghost Value = { List ℕ };

    ghost view = { λ t. string_bytes t.written };
}

impl Text {
    /// No words yet.
    pub fn new(alloc: Global) -> Text
        ensures { result ≡ [] }
    {
        Text {
            written: String::new(alloc),
        }
    }

    /// Gives the text that was written.
    pub fn into_string(self) -> String
        ensures { string_bytes result ≡ self }
    {
        self.written
    }

    /// Writes a mark, a keyword in lower case.
    #[tactic(auto, unfolding(crate::specs::Wrote::followed_by))]
    pub fn mark(&mut self, mark: Mark) -> Result<(), AllocError>
        ensures { OnOk result (Wrote self.old self.new (mark_words mark)) }
    {
        self.word(mark.text())?;
        Ok(())
    }

    /// Writes a word as it is spelled, with a line end behind `;` and a blank behind any other.
    #[tactic(auto, unfolding(crate::specs::Wrote::followed_by))]
    pub fn word(&mut self, word: &str) -> Result<(), AllocError>
        ensures { OnOk result (Wrote self.old self.new (spelled_words word.now)) }
    {
        self.written.push_str(word)?;
        if word == ";" {
            self.written.push('\n')
        } else {
            self.written.push(' ')
        }
    }

    /// Writes a number in decimal.
    pub fn number(&mut self, value: i64) -> Result<(), AllocError>
        ensures { OnOk result (Wrote self.old self.new (decimal_words value)) }
    {
        write!(self.written, "{value} ")
    }
}
