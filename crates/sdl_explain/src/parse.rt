//! The explanation of a text that is no specification.

ghost use Rattle.std.specs.Prelude.{◌≡◌, IfOk, IfSome};
ghost use Rattle.explain_syntax.specs.Earlier.{IsEarlier, StandsBefore};
ghost use Rattle.sdl_explain.specs.Refused.{IsShown, PrecedesFault, lex_place, parse_place};

use crate::shown::shown_at;
use explain_syntax::{
    Around, Explanation, Other, earlier_place, earlier_word, opening_of, opening_sentence,
    parse_advice, unclosed_before,
};
use parse_expressions::Wanted;
use sdl_lex::{LexError, Place};
use sdl_parse::ParseError;
use sdl_tree::Mark;
use std::alloc::{AllocError, Global};

/// Explains why a text is no specification. If a name has to be repeated after an `end..` word, the other place is that
/// of the name. If a semicolon is missing at the end of a line, it is that of the word that it has to follow. If an end
/// is missing, it is that of the word that opens what is still open. A text that is too long is not shown.
pub fn explain_parse<'t>(
    alloc: Global,
    text: &'t [u8],
    error: &ParseError,
) -> Result<Explanation<'t>, AllocError>
    ensures shown { IfOk result (λ told. IsShown text.now (parse_place error.now) told.shown) }
    ensures other { IfOk result (λ told. IfSome told.other (PrecedesFault text.now error.now)) }
{
    let shown = shown_at(text, parse_place(error));
    let advice = parse_advice(alloc, text, error, &shown)?;
    let other = other_of(alloc, text, error)?;
    Ok(Explanation {
        shown,
        advice,
        other,
    })
}

/// Where a text is refused, if it is at a place.
fn parse_place(error: &ParseError) -> Option<Place>
    ensures { result ≡ parse_place error.now }
{
    match error {
        ParseError::Lex(error) => lex_place(*error),
        ParseError::Expected(place, _)
        | ParseError::LeftOut(place, _)
        | ParseError::TooDeep(place) => Some(*place),
        ParseError::Memory => None,
    }
}

/// Where a text has no tokens, if it is at a place. That it is too long is nowhere.
fn lex_place(error: LexError) -> Option<Place>
    ensures { result ≡ lex_place error }
{
    match error {
        LexError::BadByte(place)
        | LexError::OpenComment(place)
        | LexError::OpenString(place)
        | LexError::NumberTooBig(place)
        | LexError::NameTooLong(place) => Some(place),
        LexError::TooLong | LexError::Memory => None,
    }
}

/// The place of the name that has to be repeated, of the word that a semicolon has to follow, and of the one that opens
/// what is still open.
fn other_of<'t>(
    alloc: Global,
    text: &'t [u8],
    error: &ParseError,
) -> Result<Option<Other<'t>>, AllocError>
    ensures { IfOk result (λ other. IfSome other (PrecedesFault text.now error.now)) }
{
    match error {
        ParseError::Expected(place, Wanted::ThisName(name)) => {
            name_to_repeat(alloc, text, *place, name.as_str())
        }
        ParseError::Expected(place, Wanted::Mark(Mark::Semicolon)) => {
            word_to_follow(alloc, text, *place)
        }
        ParseError::Expected(place, Wanted::Mark(end)) => {
            opening_word(alloc, text, *place, *end)
        }
        _ => Ok(None),
    }
}

/// Where the name is that has to be repeated at a place.
fn name_to_repeat<'t>(
    alloc: Global,
    text: &'t [u8],
    place: Place,
    name: &str,
) -> Result<Option<Other<'t>>, AllocError>
    ensures { IfOk result (λ other. IfSome other (λ it. IsEarlier text.now name.now place it.excerpt)) }
{
    let Some(opening) = opening_of(alloc, text, place, name)? else {
        return Ok(None);
    };
    match earlier_word(text, opening, name.as_bytes(), place) {
        Some(excerpt) => Ok(Some(Other {
            sentence: "It stands here:",
            excerpt,
        })),
        None => Ok(None),
    }
}

/// The last word before a place, if it is in an earlier line.
fn word_to_follow<'t>(
    alloc: Global,
    text: &'t [u8],
    place: Place,
) -> Result<Option<Other<'t>>, AllocError>
    ensures { IfOk result (λ other. IfSome other (λ it. StandsBefore text.now place it.excerpt)) }
{
    let around = Around::of(alloc, text, place)?;
    let Some(word) = around.before else {
        return Ok(None);
    };
    if word.place.line == place.line {
        return Ok(None);
    }
    match earlier_place(text, word.place, place) {
        Some(excerpt) => Ok(Some(Other {
            sentence: "It is missing after this word:",
            excerpt,
        })),
        None => Ok(None),
    }
}

/// The word that opens what a word at a place has to end, if it is seen that the end is missing.
fn opening_word<'t>(
    alloc: Global,
    text: &'t [u8],
    place: Place,
    end: Mark,
) -> Result<Option<Other<'t>>, AllocError>
    ensures { IfOk result (λ other. IfSome other (λ it. StandsBefore text.now place it.excerpt)) }
{
    let around = Around::of(alloc, text, place)?;
    let Some(sentence) = opening_sentence(&around, end) else {
        return Ok(None);
    };
    let Some(opening) = unclosed_before(alloc, text, place, end)? else {
        return Ok(None);
    };
    match earlier_place(text, opening, place) {
        Some(excerpt) => Ok(Some(Other { sentence, excerpt })),
        None => Ok(None),
    }
}
