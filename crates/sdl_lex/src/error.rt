//! Refusals of a text.

ghost use Rattle.std.specs.Prelude.{◌≡◌};
ghost use Rattle.sdl_lex.specs.LexError as spec;

use crate::place::Place;
use std::error::Error;
use std::fmt;

/// Why a text has no list of tokens. A text that is too long is refused before all others; of the other faults
/// the first in the text is told.
#[derive(Clone, Copy, Debug, PartialEq, Eq)]
pub enum LexError {
    /// The text has more than 1,048,576 bytes.
    TooLong,
    /// A byte that begins no token, at that byte.
    BadByte(Place),
    /// A comment without `*/`, at its `/*`.
    OpenComment(Place),
    /// A character string without its closing quote, at the opening one.
    OpenString(Place),
    /// A number over 9,223,372,036,854,775,807, at its first digit.
    NumberTooBig(Place),
    /// A word of more than 255 bytes, at its first letter.
    NameTooLong(Place),
    /// Memory found no room for the tokens.
    Memory,
}

impl LexError {
    /// Where the fault stands; lack of memory stands nowhere.
    pub fn place(&self) -> Option<Place>
        ensures { result ≡ spec.place self.now }
    {
        match self {
            LexError::TooLong => Some(Place::START),
            LexError::BadByte(place)
            | LexError::OpenComment(place)
            | LexError::OpenString(place)
            | LexError::NumberTooBig(place)
            | LexError::NameTooLong(place) => Some(*place),
            LexError::Memory => None,
        }
    }
}

/// The line that tells it, without its end.
impl fmt::Display for LexError {
    ghost use Rattle.std.specs.Prelude.{Some};
    ghost use Rattle.sdl_lex.specs.ErrorText.{lex_text};

    ghost output = { λ error. Some (lex_text error) };

    fn fmt<W: fmt::Write>(&self, f: &mut fmt::Formatter<W>) -> fmt::Result {
        match self {
            LexError::TooLong => write!(f, "lex 1:1 TooLong"),
            LexError::BadByte(place) => write!(f, "lex {place} BadByte"),
            LexError::OpenComment(place) => write!(f, "lex {place} OpenComment"),
            LexError::OpenString(place) => write!(f, "lex {place} OpenString"),
            LexError::NumberTooBig(place) => write!(f, "lex {place} NumberTooBig"),
            LexError::NameTooLong(place) => write!(f, "lex {place} NameTooLong"),
            LexError::Memory => write!(f, "lex Memory"),
        }
    }
}

impl Error for LexError {}
