//! Why a text has no tree.

ghost use Rattle.std.specs.Prelude.{◌≡◌};
ghost use Rattle.sdl_explain.specs.Refused.{is_lack};

use sdl_lex::LexError;
use sdl_parse::ParseError;

/// Whether a text has no tree only because memory is lacking.
pub fn is_lack(error: &ParseError) -> bool
    ensures { result ≡ is_lack error.now }
{
    matches!(
        error,
        ParseError::Memory | ParseError::Lex(LexError::Memory)
    )
}
