//! The byte of a text at a place.

ghost use Rattle.std.specs.Prelude.{◌≡◌, ◌↔◌, IfNone, IfSome, IsTrue};
ghost use Rattle.explain_syntax.specs.Excerpt.{IsAt, IsNowhere};

use sdl_lex::Place;

/// The offset of the byte at a place; for the place just past the text, the text's length. None if the text has no such
/// place.
pub fn offset_of(text: &[u8], place: Place) -> Option<usize>
    ensures found { IfSome result (IsAt text.now place) }
    ensures none { IfNone result (IsNowhere text.now place) }
{
    let mut line = 1;
    let mut column = 1;
    for (at, byte) in text.iter().enumerate() {
        if is_at(place, line, column) {
            return Some(at);
        }
        if *byte == b'\n' {
            line += 1;
            column = 1;
        } else {
            column += 1;
        }
    }
    if is_at(place, line, column) {
        Some(text.len())
    } else {
        None
    }
}

/// Whether a place is that of a line and a column.
fn is_at(place: Place, line: usize, column: usize) -> bool
    ensures { IsTrue result ↔ (place ≡ record { line = line; column = column }) }
{
    place.line == line && place.column == column
}
