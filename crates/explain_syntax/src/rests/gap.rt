//! The bytes around a place of a text that are left out.

ghost use Rattle.std.specs.Prelude.{◌≡◌, ◌<◌, ◌++◌, IfOk, OnOk, length, map, option_map};
ghost use Rattle.std.specs.String.{string_bytes};
ghost use Rattle.explain_syntax.specs.Gap.{IsGapAt, begin_of, gap_value, is_lack, is_missed, is_within, listed, names_from};
ghost use Rattle.explain_syntax.specs.Words.{name_in};

use crate::rests::cut::Cut;
use crate::rests::words::{is_at, is_definition_at, is_mark_at, name_of};
use parse_expressions::{PlacedWord, placed_words};
use sdl_lex::{LexError, Place, Token, lex};
use sdl_tree::Mark;
use std::alloc::{AllocError, Global};

/// The bytes that are left out of a text, whether a `stop` takes their place, and the names among them that may be
/// missed.
#[derive(Drop)]
pub struct Gap {
    pub from: usize,
    pub to: usize,
    pub stops: bool,
    pub names: Vec<String>,
}

impl Gap {
    /// What is left out around the word at this place, if that is known.
    pub fn around(alloc: Global, text: &[u8], place: Place) -> Result<Option<Gap>, AllocError>
        ensures { IfOk result (λ gap. IsGapAt text.now place (option_map gap_value gap)) }
    {
        let tokens = match lex(alloc, text) {
            Ok(tokens) => tokens,
            Err(error) => {
                if is_lack(error) {
                    return Err(AllocError);
                }
                return Ok(None);
            }
        };
        let words = placed_words(alloc, text, &tokens)?;
        let Some(cut) = Cut::around(&words, place) else {
            return Ok(None);
        };
        Ok(Some(Gap {
            from: begin_of(text, &tokens, cut.from),
            to: begin_of(text, &tokens, cut.to),
            stops: cut.stops,
            names: names_of(alloc, &words, place, cut)?,
        }))
    }
}

/// Whether a text has no tokens only because memory is lacking.
fn is_lack(error: LexError) -> bool
    ensures { result ≡ is_lack error }
{
    matches!(error, LexError::Memory)
}

/// The names among the words that are left out that may be missed.
fn names_of(
    alloc: Global,
    words: &[PlacedWord<'_>],
    place: Place,
    cut: Cut,
) -> Result<Vec<String>, AllocError>
    ensures { IfOk result (λ names. map string_bytes names.items ≡ names_from words.now place cut 0 words.now) }
{
    let mut names = Vec::new(alloc);
    for (at, word) in words.iter().enumerate() {
        let may_be_missed = is_missed(words, place, cut, at, *word);
        push_name(alloc, &mut names, *word, may_be_missed)?;
    }
    Ok(names)
}

/// Whether something may be missed without the name that this word is, if it is left out. A definition has it, or it is a
/// label. At the place itself it is wrong, and may be wrong again elsewhere.
fn is_missed(
    words: &[PlacedWord<'_>],
    place: Place,
    cut: Cut,
    at: usize,
    word: PlacedWord<'_>,
) -> bool
    requires { at < length words.now }
    ensures { result ≡ is_missed words.now place cut at word.entry }
{
    is_within(cut, at)
        && (is_definition_at(words, cut.from)
            || is_at(word, place)
            || is_mark_at(words, at + 1, Mark::Colon))
}

/// Whether the word of this number is left out.
fn is_within(cut: Cut, at: usize) -> bool
    ensures { result ≡ is_within cut at }
{
    cut.from <= at && at < cut.to
}

/// Adds the name that a word is, if that may be missed.
fn push_name(
    alloc: Global,
    names: &mut Vec<String>,
    word: PlacedWord<'_>,
    may_be_missed: bool,
) -> Result<(), AllocError>
    ensures { OnOk result (map string_bytes names.new.items
        ≡ map string_bytes names.old.items ++ listed may_be_missed (name_in word.entry)) }
{
    if !may_be_missed {
        return Ok(());
    }
    if let Some(name) = name_of(word) {
        names.push(String::from_str(alloc, name)?)?;
    }
    Ok(())
}

/// Where a token begins; the end of the text, if there is none of this number.
fn begin_of(text: &[u8], tokens: &[Token], number: usize) -> usize
    ensures { result ≡ begin_of text.now tokens.now number }
{
    match tokens.get(number) {
        Some(token) => token.start,
        None => text.len(),
    }
}
