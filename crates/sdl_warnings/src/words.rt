//! What a word is.

ghost use Rattle.std.specs.Prelude.{◌≡◌, option_map};
ghost use Rattle.sdl_warnings.specs.Words.{is_mark, is_name, is_number, mark_in, name_in};

use parse_expressions::{PlacedWord, Word};
use sdl_tree::Mark;

/// The keyword or mark that a word is.
pub fn mark_of(word: PlacedWord<'_>) -> Option<Mark>
    ensures { result ≡ mark_in word.entry }
{
    match word.word {
        Word::Fixed(mark, _) => Some(mark),
        _ => None,
    }
}

/// Whether a word is this mark.
#[tactic(auto, unfolding(parse_expressions::specs::Reading::same_mark))]
pub fn is_mark(word: PlacedWord<'_>, mark: Mark) -> bool
    ensures { result ≡ is_mark mark word.entry }
{
    match mark_of(word) {
        Some(found) => found == mark,
        None => false,
    }
}

/// The name that a word is.
pub fn name_of<'t>(word: PlacedWord<'t>) -> Option<&'t str>
    ensures { option_map (λ text. text.now) result ≡ name_in word.entry }
{
    match word.word {
        Word::Name(text) => Some(text),
        _ => None,
    }
}

/// Whether a word is this name.
pub fn is_name(word: PlacedWord<'_>, name: &str) -> bool
    ensures { result ≡ is_name name.now word.entry }
{
    match name_of(word) {
        Some(found) => name == found,
        None => false,
    }
}

/// Whether a word is a number.
pub fn is_number(word: PlacedWord<'_>) -> bool
    ensures { result ≡ is_number word.entry }
{
    matches!(word.word, Word::Number(..))
}
