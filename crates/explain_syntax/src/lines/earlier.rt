//! Another place, if it comes before the one that is told.

ghost use Rattle.std.specs.Prelude.{◌≡◌, ◌↔◌, IfSome, IsTrue, length, take};
ghost use Rattle.explain_syntax.specs.Earlier.{IsBefore, IsEarlier, StandsBefore};

use crate::lines::excerpt::Excerpt;
use sdl_lex::Place;

/// The excerpt at a place, if that comes before another one and has this word.
pub fn earlier_word<'t>(
    text: &'t [u8],
    place: Place,
    word: &[u8],
    than: Place,
) -> Option<Excerpt<'t>>
    ensures { IfSome result (IsEarlier text.now word.now than) }
{
    let excerpt = Excerpt::at(text, place)?;
    let is_word = excerpt.width == word.len() && begins_with(excerpt.behind, word);
    if is_word && is_before(place, than) {
        Some(excerpt)
    } else {
        None
    }
}

/// The excerpt at a place, if that comes before another one.
pub fn earlier_place<'t>(text: &'t [u8], place: Place, than: Place) -> Option<Excerpt<'t>>
    ensures { IfSome result (StandsBefore text.now than) }
{
    let excerpt = Excerpt::at(text, place)?;
    if is_before(place, than) {
        Some(excerpt)
    } else {
        None
    }
}

/// Whether a place comes before another.
fn is_before(place: Place, than: Place) -> bool
    ensures { IsTrue result ↔ IsBefore place than }
{
    place.line < than.line || place.line == than.line && place.column < than.column
}

/// Whether the bytes begin with the word.
fn begins_with(bytes: &[u8], word: &[u8]) -> bool
    ensures { IsTrue result → take (length word.now) bytes.now ≡ word.now }
{
    word.len() <= bytes.len() && &bytes[..word.len()] == word
}
