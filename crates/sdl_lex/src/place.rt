//! Lines and columns.

ghost use Rattle.std.specs.Prelude.{◌≡◌, ◌≤◌, length, take, Some};
ghost use Rattle.sdl_lex.specs.Place.{last_line_len, place_after, place_text};

use std::fmt;

/// A place in a text. Lines and columns count from 1, columns in bytes. A line ends at LF alone.
#[derive(Clone, Copy, Debug, PartialEq, Eq, PartialOrd, Ord)]
pub struct Place {
    pub line: usize,
    pub column: usize,
}

impl Place {
    /// Where each text begins.
    pub const START: Place = Place { line: 1, column: 1 };
}

/// Writes `L:C`.
impl fmt::Display for Place {
    ghost output = { λ p. Some (place_text p) };

    fn fmt<W: fmt::Write>(&self, f: &mut fmt::Formatter<W>) -> fmt::Result {
        let line = self.line;
        let column = self.column;
        write!(f, "{line}:{column}")
    }
}

/// The place of the byte at an offset; at the text's length, the place just past the text.
pub fn place_of(text: &[u8], offset: usize) -> Place
    requires { offset ≤ length text.now }
    ensures { result ≡ place_after (take offset text.now) }
{
    let before = &text[..offset];
    let line_ends = before.iter().filter(|b| **b == b'\n').count();
    Place {
        line: line_ends + 1,
        column: last_line_len(before) + 1,
    }
}

fn last_line_len(bytes: &[u8]) -> usize
    ensures value { result ≡ last_line_len bytes.now }
    ensures within { result ≤ length bytes.now }
{
    let mut len = 0;
    for b in bytes {
        len = if *b == b'\n' { 0 } else { len + 1 };
    }
    len
}
