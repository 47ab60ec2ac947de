//! Words that may be left out.

ghost use Rattle.sdl_parse.specs.Taken.{Taken};

use parse_expressions::{Cursor, PlacedWord, Word};
use sdl_tree::{Mark, Spelling};

/// Passes this mark, if it stands next.
#[tactic(auto, unfolding(parse_expressions::specs::Reading::expect, parse_expressions::specs::Reading::same_mark, parse_expressions::specs::Reading::sees))]
pub(crate) fn taken(cursor: &mut Cursor<'_, '_>, mark: Mark) -> Option<Spelling>
    ensures { Taken mark cursor.old result cursor.new }
{
    match cursor.front() {
        Some(
            PlacedWord {
                word: Word::Fixed(next, case),
                place,
            },
        ) => {
            if next == mark {
                cursor.pass();
                return Some(Spelling { case, place });
            }
            None
        }
        _ => None,
    }
}
