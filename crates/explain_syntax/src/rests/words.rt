//! What a word is.

ghost use Rattle.std.specs.Prelude.{◌≡◌, option_map, slice_get};
ghost use Rattle.explain_syntax.specs.Words as spec;

use parse_expressions::{PlacedWord, Word};
use sdl_lex::Place;
use sdl_tree::Mark;

/// Whether a word is this mark.
#[tactic(auto, unfolding(parse_expressions::specs::Reading::same_mark))]
pub fn is_mark(word: PlacedWord<'_>, mark: Mark) -> bool
    ensures { result ≡ spec.is_mark mark word.entry }
{
    match word.word {
        Word::Fixed(found, _) => found == mark,
        _ => false,
    }
}

/// Whether the word of this number is this mark.
pub fn is_mark_at(words: &[PlacedWord<'_>], at: usize, mark: Mark) -> bool
    ensures { result ≡ spec.is_mark_in mark (slice_get words.now at) }
{
    match words.get(at) {
        Some(word) => is_mark(*word, mark),
        None => false,
    }
}

/// Whether the word of this number begins a definition or a part of one.
pub fn is_definition_at(words: &[PlacedWord<'_>], at: usize) -> bool
    ensures { result ≡ spec.is_definition_in (slice_get words.now at) }
{
    match words.get(at) {
        Some(word) => is_definition(*word),
        None => false,
    }
}

/// The name that a word is.
pub fn name_of<'t>(word: PlacedWord<'t>) -> Option<&'t str>
    ensures { option_map (λ text. text.now) result ≡ spec.name_in word.entry }
{
    match word.word {
        Word::Name(text) => Some(text),
        _ => None,
    }
}

/// Whether a word is at this place.
pub fn is_at(word: PlacedWord<'_>, place: Place) -> bool
    ensures { result ≡ spec.is_same_place word.entry.place place }
{
    word.place.line == place.line && word.place.column == place.column
}

/// Whether a keyword ends a transition, if its statement is there.
fn ends_transition(word: PlacedWord<'_>) -> bool
    ensures { result ≡ spec.ends_transition word.entry }
{
    is_mark(word, Mark::NextState) || is_mark(word, Mark::Join) || is_mark(word, Mark::Stop)
}

/// Whether a keyword begins a statement of a transition.
pub fn is_action(word: PlacedWord<'_>) -> bool
    ensures { result ≡ spec.is_action word.entry }
{
    ends_transition(word)
        || is_mark(word, Mark::Task)
        || is_mark(word, Mark::Output)
        || is_mark(word, Mark::Set)
        || is_mark(word, Mark::Reset)
        || is_mark(word, Mark::Create)
        || is_mark(word, Mark::Decision)
}

/// Whether a keyword begins what is never left out.
pub fn is_closed(word: PlacedWord<'_>) -> bool
    ensures { result ≡ spec.is_closed word.entry }
{
    is_mark(word, Mark::System)
        || is_mark(word, Mark::Block)
        || is_mark(word, Mark::Process)
        || is_mark(word, Mark::Channel)
        || is_mark(word, Mark::From)
        || is_mark(word, Mark::Connection)
        || is_mark(word, Mark::State)
        || is_mark(word, Mark::Start)
}

/// Whether a keyword begins a definition or a part of one.
fn is_definition(word: PlacedWord<'_>) -> bool
    ensures { result ≡ spec.is_definition word.entry }
{
    is_mark(word, Mark::Signal)
        || is_mark(word, Mark::SignalList)
        || is_mark(word, Mark::SignalSet)
        || is_mark(word, Mark::Synonym)
        || is_mark(word, Mark::Dcl)
        || is_mark(word, Mark::Fpar)
        || is_mark(word, Mark::Timer)
        || is_mark(word, Mark::Connect)
}

/// Whether a keyword begins a part of the text.
pub fn is_lead(word: PlacedWord<'_>) -> bool
    ensures { result ≡ spec.is_lead word.entry }
{
    is_action(word)
        || is_closed(word)
        || is_definition(word)
        || is_mark(word, Mark::Input)
        || is_mark(word, Mark::Save)
        || is_mark(word, Mark::Provided)
        || is_mark(word, Mark::Else)
}

/// Whether a keyword begins a stimulus, or ends a state.
pub fn is_stimulus_or_end(word: PlacedWord<'_>) -> bool
    ensures { result ≡ spec.is_stimulus_or_end word.entry }
{
    is_mark(word, Mark::Input)
        || is_mark(word, Mark::Save)
        || is_mark(word, Mark::Provided)
        || is_mark(word, Mark::EndState)
        || is_mark(word, Mark::State)
        || is_mark(word, Mark::Connection)
        || is_mark(word, Mark::EndProcess)
}
