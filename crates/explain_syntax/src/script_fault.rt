//! What is wrong in a line of a script.

use crate::script_words::column_in;

/// What is wrong in a line of a script.
#[derive(Clone, Copy)]
pub struct LineFault<'l> {
    /// The line from the place on at which it is wrong.
    rest: &'l [u8],
    pub sentence: &'static str,
}

impl<'l> LineFault<'l> {
    pub fn at(rest: &'l [u8], sentence: &'static str) -> LineFault<'l> {
        LineFault { rest, sentence }
    }

    /// In which column of the line it is.
    pub fn column(&self, line: &[u8]) -> usize {
        column_in(line.trim_ascii_end(), self.rest)
    }
}

pub const NO_COMMENT: &str =
    "A comment of a script has a line of its own, and `#` is the first byte of that line.";
