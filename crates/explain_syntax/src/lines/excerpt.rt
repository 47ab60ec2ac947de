//! A line of a text, and a place in it.

use crate::lines::line::{line_end, line_start};
use crate::lines::offset::offset_of;
use crate::lines::width::width_of;
use sdl_lex::Place;

/// A line of a text, parted at the byte that stands at a place.
#[derive(Clone, Copy)]
pub struct Excerpt<'t> {
    pub place: Place,
    /// The part of the line before the place.
    pub before: &'t [u8],
    /// The part of it from the place on, without the LF.
    pub behind: &'t [u8],
    /// How many bytes are marked, 1 at least. If the line ends at the place, its end is marked.
    pub width: usize,
}

impl<'t> Excerpt<'t> {
    ghost use Rattle.std.specs.Prelude.{IfNone, IfSome};
    ghost use Rattle.explain_syntax.specs.Excerpt.{IsExcerpt, IsNowhere, IsWidth};

    /// The line of a text in which a place lies, with the word there marked. None if the text has no such place.
    pub fn at(text: &'t [u8], place: Place) -> Option<Excerpt<'t>>
        ensures found { IfSome result (IsExcerpt text.now place) }
        ensures width { IfSome result (λ excerpt. IsWidth excerpt.behind.now excerpt.width) }
        ensures none { IfNone result (IsNowhere text.now place) }
    {
        let offset = offset_of(text, place)?;
        let start = line_start(text, offset);
        let end = line_end(text, offset);
        let behind = &text[offset..end];
        Some(Excerpt {
            place,
            before: &text[start..offset],
            behind,
            width: width_of(behind),
        })
    }
}
