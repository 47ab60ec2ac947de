//! What the tokens of a text mean to the grammar.

ghost use Rattle.std.specs.Prelude.{◌≡◌, ◌≤◌, ◌<◌, ◌+◌, ◌-◌, ◌^◌, All, IfOk, length, map, slice_range, take};
ghost use Rattle.std.specs.Str.{IsAscii};
ghost use Rattle.sdl_lex.specs.Place.{place_after};
ghost use Rattle.sdl_lex.specs.Token.{InOrder, IsSlice};
ghost use Rattle.parse_expressions.specs.PlacedWord.{word_of_placed};
ghost use Rattle.parse_expressions.specs.Searched as spec;
ghost use Rattle.sdl_tree.specs.Words as words;

use sdl_lex::{Kind, Place, Token};
use sdl_tree::{Case, Mark, keyword_of, left_out, sign_of};
use std::alloc::{AllocError, Global};
use std::str;

/// The meaning of a token, with its text where the text decides.
#[derive(Clone, Copy)]
pub enum Word<'t> {
    /// A keyword, a literal or another mark in this spelling.
    Fixed(Mark, Case),
    Name(&'t str),
    /// A number and its digits.
    Number(i64, &'t str),
    /// A character string, with its quotes.
    Text(&'t [u8]),
    /// A word of the standard that is left out here, in lower case and as it is spelled.
    LeftOut(&'t str, &'t str),
}

/// A word and the place of its token.
#[derive(Clone, Copy)]
pub struct PlacedWord<'t> {
    pub word: Word<'t>,
    pub place: Place,
}

/// How far a text was searched for line ends, and the place there.
#[derive(Clone, Copy)]
pub struct Searched {
    pub offset: usize,
    pub place: Place,
}

/// The words of a text with these tokens, each classified once, with their places.
pub fn placed_words<'t>(
    alloc: Global,
    text: &'t [u8],
    tokens: &[Token],
) -> Result<Vec<PlacedWord<'t>>, AllocError>
    requires in_order { InOrder 0 tokens.now (length text.now) }
    requires slices { All (IsSlice text.now) tokens.now }
    ensures { IfOk result (λ found. map word_of_placed found.items ≡ words.words_of text.now tokens.now) }
{
    let mut found = Vec::with_capacity(alloc, tokens.len())?;
    let mut searched = Searched {
        offset: 0,
        place: Place::START,
    };
    let mut rest = tokens;
    'rest: while let Some((token, after)) = rest.split_first() {
        let place = moved(text, searched.offset, searched.place, token.start);
        found.push(placed(text, *token, place))?;
        searched = behind(*token, place);
        rest = after;
    }
    Ok(found)
}

/// Where the search for line ends goes on after a token at this place: after its last byte, if no line ends in it.
fn behind(token: Token, place: Place) -> Searched
    requires ordered { token.start ≤ token.end }
    requires room { place.column + (token.end - token.start) < 2 ^ 64 }
    ensures { result ≡ spec.behind token place }
{
    if may_break(token.kind) {
        return Searched {
            offset: token.start,
            place,
        };
    }
    Searched {
        offset: token.end,
        place: Place {
            line: place.line,
            column: place.column + (token.end - token.start),
        },
    }
}

/// Whether a line may end in a token of this kind.
fn may_break(kind: Kind) -> bool
    ensures { result ≡ spec.may_break kind }
{
    matches!(kind, Kind::Text)
}

/// Makes the word that a token of this text means, at this place.
#[tactic(auto, unfolding(sdl_tree::specs::Words::word_of))]
fn placed<'t>(text: &'t [u8], token: Token, place: Place) -> PlacedWord<'t>
    requires ordered { token.start ≤ token.end }
    requires within { token.end ≤ length text.now }
    requires slice { IsSlice text.now token }
    ensures { word_of_placed result ≡ words.word_of token.kind
        (record { text = slice_range text.now token.start token.end; place = place }) }
{
    let bytes = &text[token.start..token.end];
    let word = match token.kind {
        Kind::Word => match keyword_of(bytes) {
            Some(keyword) => Word::Fixed(keyword.mark, keyword.case),
            None => match left_out(bytes) {
                Some(lower) => Word::LeftOut(lower, spelled(bytes)),
                None => Word::Name(spelled(bytes)),
            },
        },
        Kind::Number(value) => Word::Number(value, spelled(bytes)),
        Kind::Text => Word::Text(bytes),
        Kind::Mark => match sign_of(bytes) {
            Some(mark) => Word::Fixed(mark, Case::Lower),
            None => Word::Name(spelled(bytes)),
        },
    };
    PlacedWord { word, place }
}

/// The bytes of a word, a number or a mark as text.
#[tactic(auto, using(crate::proofs::WordLemmas::ascii))]
fn spelled(bytes: &[u8]) -> &str
    requires { IsAscii bytes.now }
    ensures { result.now ≡ bytes.now }
{
    match str::from_utf8(bytes) {
        Ok(text) => text,
        Err(_) => unreachable!(),
    }
}

/// The place of the offset `to`, from the place of an offset before it.
#[tactic(auto, using(crate::proofs::WordLemmas::counting))]
fn moved(text: &[u8], from: usize, place: Place, to: usize) -> Place
    requires forward { from ≤ to }
    requires within { to ≤ length text.now }
    requires placed { place ≡ place_after (take from text.now) }
    ensures { result ≡ place_after (take to text.now) }
{
    let mut line = place.line;
    let mut column = place.column;
    for at in from..to {
        if text[at] == b'\n' {
            line += 1;
            column = 1;
        } else {
            column += 1;
        }
    }
    Place { line, column }
}
