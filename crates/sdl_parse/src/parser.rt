//! The tree of a text.

ghost use Rattle.std.specs.Prelude.{◌<◌, ◌↔◌, Some, None, IfErr, IfOk, IsErrOf, length};
ghost use Rattle.sdl_parse.specs.Parser.{Refuses, SpellsText, Tells, TellsLeftOut};
ghost use Rattle.parse_expressions.specs.PlacedWord.{word_of_placed};
ghost use Rattle.parse_expressions.specs.Reading.{front};
ghost use Rattle.sdl_tree.specs.Views.{tree_value};

use crate::error::ParseError;
use crate::system::specification;
use parse_expressions::place::LIMIT;
use parse_expressions::{Cursor, Fault, PlacedWord, Word, placed_words};
use sdl_lex::{LexError, Place, lex, place_of};
use sdl_tree::Tree;
use std::alloc::Global;

/// The tree of a specification, from its text. A text that is too long is told before all; of other faults the lexer's
/// comes first, and then the first token where no reading goes on.
pub fn parse(alloc: Global, text: &[u8]) -> Result<Tree, ParseError>
    ensures found { IfOk result (λ tree. SpellsText (tree_value tree) text.now) }
    ensures refused { IfErr result (λ e. Refuses e text.now) }
    ensures too_long { IsErrOf result (ParseError.Lex LexError.TooLong) ↔ (1048576 < length text.now) }
{
    let tokens = match lex(alloc, text) {
        Ok(tokens) => tokens,
        Err(error) => return Err(ParseError::Lex(error)),
    };
    let words = match placed_words(alloc, text, tokens.as_slice()) {
        Ok(words) => words,
        Err(_) => return Err(ParseError::Memory),
    };
    let mut cursor = Cursor::new(words.as_slice());
    match specification(alloc, &mut cursor, LIMIT) {
        Ok(tree) => Ok(tree),
        Err(fault) => Err(refusal(alloc, &cursor, place_of(text, text.len()), fault)),
    }
}

/// How a fault at the front of the cursor is told, where the text ends at this place.
fn refusal(alloc: Global, cursor: &Cursor<'_, '_>, end: Place, fault: Fault) -> ParseError
    ensures { Tells result fault (front cursor.now) }
{
    match cursor.front() {
        Some(next) => refusal_of(alloc, next, fault),
        None => refusal_at_end(alloc, end, fault),
    }
}

/// How a fault of this word is told: a character string and a left-out word have their own refusal.
fn refusal_of(alloc: Global, next: PlacedWord<'_>, fault: Fault) -> ParseError
    ensures { Tells result fault (Some (word_of_placed next.entry)) }
{
    let place = next.place;
    match fault {
        Fault::Expected(wanted) => match next.word {
            Word::Text(_) => left_out(alloc, place, "text"),
            Word::LeftOut(lower, _) => left_out(alloc, place, lower),
            _ => ParseError::Expected(place, wanted),
        },
        Fault::Condition => left_out(alloc, place, "provided"),
        Fault::TooDeep => ParseError::TooDeep(place),
        Fault::Memory => ParseError::Memory,
    }
}

/// How a fault of the end of the text is told.
fn refusal_at_end(alloc: Global, end: Place, fault: Fault) -> ParseError
    ensures { Tells result fault None }
{
    match fault {
        Fault::Expected(wanted) => ParseError::Expected(end, wanted),
        Fault::Condition => left_out(alloc, end, "provided"),
        Fault::TooDeep => ParseError::TooDeep(end),
        Fault::Memory => ParseError::Memory,
    }
}

/// The refusal of a word that is left out there.
fn left_out(alloc: Global, place: Place, word: &str) -> ParseError
    ensures { TellsLeftOut result place word.now }
{
    match String::from_str(alloc, word) {
        Ok(word) => ParseError::LeftOut(place, word),
        Err(_) => ParseError::Memory,
    }
}
