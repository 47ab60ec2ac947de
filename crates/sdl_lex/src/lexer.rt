//! The list of a text's tokens.

ghost use Rattle.std.specs.Prelude.{◌≡◌, ◌<◌, ◌≤◌, ◌↔◌, ℕ, length, List, IfErr, IfOk, IsErrOf, All};
ghost use Rattle.sdl_lex.specs.LexError.{IsInText, Refuses, place};
ghost use Rattle.sdl_lex.specs.Part.{Lexes};
ghost use Rattle.sdl_lex.specs.Piece.{refusal};
ghost use Rattle.sdl_lex.specs.Token.{InOrder, IsSlice, IsWithin};
ghost use Rattle.sdl_lex.specs.declared.error.LexError as error;
ghost use Rattle.sdl_lex.specs.declared.token.Token as token;

use crate::error::LexError;
use crate::piece::{Fault, cut};
use crate::place::{Place, place_of};
use crate::token::Token;
use std::alloc::Global;

/// How many bytes a text may have.
const MAX_TEXT: usize = 1_048_576;

/// The tokens of a text, in order. Of several faults the first in the text is told, but `TooLong` before all.
pub fn lex(alloc: Global, text: &[u8]) -> Result<Vec<Token>, LexError>
    ensures tokens { IfOk result (λ tokens. Lexes text.now tokens.items) }
    ensures fault { IfErr result (λ e. Refuses e text.now) }
    ensures too_long { IsErrOf result LexError.TooLong ↔ (1048576 < length text.now) }

    // What a caller needs to take the tokens' bytes from the text.
    ensures in_order { IfOk result (λ tokens. InOrder 0 tokens.items (length text.now)) }
    ensures within { IfOk result (λ tokens. All (IsWithin (length text.now)) tokens.items) }
    ensures slices { IfOk result (λ tokens. All (IsSlice text.now) tokens.items) }
{
    if text.len() > MAX_TEXT {
        return Err(LexError::TooLong);
    }
    let mut tokens = Vec::new(alloc);
    let mut rest = text;
    while !rest.is_empty() {
        let start = text.len() - rest.len();
        let piece = match cut(rest) {
            Ok(piece) => piece,
            Err(fault) => return Err(refusal(fault, place_of(text, start))),
        };
        let (_, after) = rest.split_at(piece.len);
        if let Some(kind) = piece.kind {
            let end = start + piece.len;
            let token = Token { kind, start, end };
            tokens.push(token).map_err(|_| LexError::Memory)?;
        }
        rest = after;
    }
    Ok(tokens)
}

fn refusal(fault: Fault, place: Place) -> LexError
    ensures { result ≡ refusal fault place }
{
    match fault {
        Fault::BadByte => LexError::BadByte(place),
        Fault::OpenComment => LexError::OpenComment(place),
        Fault::OpenString => LexError::OpenString(place),
        Fault::NumberTooBig => LexError::NumberTooBig(place),
        Fault::NameTooLong => LexError::NameTooLong(place),
    }
}

/// A text has one list of tokens. The function does nothing: its contract is a law.
pub fn one_list()
    ensures { (text : List ℕ) (tokens others : List token.Token) → Lexes text tokens
        → Lexes text others → tokens ≡ others }
{}

/// A text with a fault has no list of tokens, and its faults stand at one place, so that the fault is its first.
/// The function does nothing: its contract is a law.
pub fn one_fault()
    ensures no_list { (text : List ℕ) (error : error.LexError) (tokens : List token.Token) → IsInText error
        → Refuses error text → ¬ Lexes text tokens }
    ensures one_place { (text : List ℕ) (error other : error.LexError) → IsInText error → IsInText other
        → Refuses error text → Refuses other text → place error ≡ place other }
{}
