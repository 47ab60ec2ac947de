//! The line that is shown of a place.

ghost use Rattle.sdl_explain.specs.Refused.{IsShown};

use explain_syntax::Excerpt;
use sdl_lex::Place;

/// The line of a place, if there is one.
pub fn shown_at<'t>(text: &'t [u8], place: Option<Place>) -> Option<Excerpt<'t>>
    ensures { IsShown text.now place result }
{
    Excerpt::at(text, place?)
}
