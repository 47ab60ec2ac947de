//! Refusals of a text that is no specification.

use parse_expressions::Wanted;
use sdl_lex::{LexError, Place};
use std::error::Error;
use std::fmt;

/// Why a text has no tree. Of several faults the lexer's comes first, and then that of the first token where no
/// reading goes on. Each place but the lexer's is that of this token, or just past the text where it ends too early.
#[derive(Debug, Drop)]
pub enum ParseError {
    /// The text has no tokens.
    Lex(LexError),
    /// Another token stands here than what must stand here.
    Expected(Place, Wanted),
    /// A word stands here that belongs to no construct that is read, or not here: a character string, told as `text`; a
    /// word of the standard that the language leaves out, in lower case; or `provided` after a priority input.
    LeftOut(Place, String),
    /// A parenthesis or a decision opens here inside 64 others.
    TooDeep(Place),
    /// Memory is out.
    Memory,
}

/// The line that tells it, without its end.
impl fmt::Display for ParseError {
    ghost use Rattle.std.specs.Prelude.{Some};
    ghost use Rattle.sdl_parse.specs.ErrorText.{parse_text};

    ghost output = { λ error. Some (parse_text error) };

    fn fmt<W: fmt::Write>(&self, f: &mut fmt::Formatter<W>) -> fmt::Result {
        match self {
            ParseError::Lex(error) => write!(f, "{error}"),
            ParseError::Expected(place, wanted) => write!(f, "parse {place} Expected {wanted}"),
            ParseError::LeftOut(place, word) => write!(f, "parse {place} LeftOut {word}"),
            ParseError::TooDeep(place) => write!(f, "parse {place} TooDeep"),
            ParseError::Memory => write!(f, "parse Memory"),
        }
    }
}

impl Error for ParseError {}
