//! Which words of a specification are left out, so that a rule that is broken among them is broken no more.

ghost use Rattle.std.specs.Prelude.{◌≡◌, ◌<◌, length, slice_get};
ghost use Rattle.explain_syntax.specs.Cut as cut;

use crate::rests::scan::{
    end_after, has_semicolon, last_lead, next_end, opening_before, semicolon_after, word_at,
};
use crate::rests::words::{is_action, is_closed, is_mark, is_mark_at, name_of};
use parse_expressions::PlacedWord;
use sdl_lex::Place;
use sdl_tree::Mark;

/// The words that are left out: from one up to another, which stays. If the transition would go on without an end there,
/// a `stop` takes their place.
#[derive(Clone, Copy)]
pub struct Cut {
    pub from: usize,
    pub to: usize,
    pub stops: bool,
}

impl Cut {
    /// What is left out around the word at this place: a definition, a statement, a whole decision, or an input with its
    /// transition. None, if it is none of these.
    pub fn around(words: &[PlacedWord<'_>], place: Place) -> Option<Cut>
        ensures { result ≡ cut.cut_around words.now place }
    {
        let at = word_at(words, place)?;
        let lead = last_lead(words, at)?;
        cut_by(words, at, lead)
    }
}

/// What is left out around a word in the part that begins with this keyword. If a semicolon is between the two, the word
/// is in an answer of a decision.
fn cut_by(words: &[PlacedWord<'_>], at: usize, lead: usize) -> Option<Cut>
    requires { at < length words.now }
    ensures { result ≡ cut.cut_by words.now at lead (slice_get words.now lead) }
{
    let word = *words.get(lead)?;
    if is_action(word) && has_semicolon(words, lead, at) {
        decision_around(words, at)
    } else if is_mark(word, Mark::NextState) || is_mark(word, Mark::Join) {
        ending(words, lead)
    } else if is_mark(word, Mark::Decision) || is_mark(word, Mark::Else) {
        decision_around(words, at)
    } else if is_stimulus(words, lead, word) {
        stimulus(words, lead)
    } else if is_closed(word) {
        None
    } else {
        statement(words, lead)
    }
}

/// A statement or a definition, with its semicolon.
fn statement(words: &[PlacedWord<'_>], lead: usize) -> Option<Cut>
    ensures { result ≡ cut.statement words.now lead }
{
    let end = semicolon_after(words, lead)?;
    Some(Cut {
        from: lead,
        to: end + 1,
        stops: false,
    })
}

/// A statement that ends a transition; `stop` takes its place.
fn ending(words: &[PlacedWord<'_>], lead: usize) -> Option<Cut>
    ensures { result ≡ cut.ending words.now lead }
{
    let end = semicolon_after(words, lead)?;
    Some(Cut {
        from: lead,
        to: end,
        stops: true,
    })
}

/// An input or a continuous signal, with its transition.
fn stimulus(words: &[PlacedWord<'_>], lead: usize) -> Option<Cut>
    ensures { result ≡ cut.stimulus words.now lead }
{
    let end = stimulus_end(words, lead)?;
    Some(Cut {
        from: stimulus_begin(words, lead),
        to: end,
        stops: false,
    })
}

/// Where a stimulus begins with this keyword, or with `priority` before it.
fn stimulus_begin(words: &[PlacedWord<'_>], lead: usize) -> usize
    ensures { result ≡ cut.stimulus_begin words.now lead }
{
    if lead > 0 && is_mark_at(words, lead - 1, Mark::Priority) {
        lead - 1
    } else {
        lead
    }
}

/// Where after a stimulus the next one begins, or what ends the state.
fn stimulus_end(words: &[PlacedWord<'_>], lead: usize) -> Option<usize>
    ensures { result ≡ cut.stimulus_end words.now lead }
{
    let end = semicolon_after(words, lead)?;
    let begin = transition_begin(words, lead, end + 1)?;
    next_end(words, begin)
}

/// Where the transition of a stimulus begins whose first semicolon is before this word: after the enabling condition, if
/// an input has one.
fn transition_begin(words: &[PlacedWord<'_>], lead: usize, first: usize) -> Option<usize>
    ensures { result ≡ cut.transition_begin words.now lead first }
{
    if is_mark_at(words, lead, Mark::Input) && is_mark_at(words, first, Mark::Provided) {
        let end = semicolon_after(words, first)?;
        Some(end + 1)
    } else {
        Some(first)
    }
}

/// The decision around a word, in whose question or answers that is.
fn decision_around(words: &[PlacedWord<'_>], at: usize) -> Option<Cut>
    requires { at < length words.now }
    ensures { result ≡ cut.decision_around words.now at }
{
    let from = opening_before(words, at)?;
    let end = end_after(words, from)?;
    let semicolon = semicolon_after(words, end)?;
    Some(decision_to(words, from, semicolon))
}

/// A decision up to this semicolon. If no statement follows it, a `stop` takes its place.
fn decision_to(words: &[PlacedWord<'_>], from: usize, end: usize) -> Cut
    requires { end < length words.now }
    ensures { result ≡ cut.decision_to words.now from end }
{
    if goes_on(words.get(end + 1).copied()) {
        Cut {
            from,
            to: end + 1,
            stops: false,
        }
    } else {
        Cut {
            from,
            to: end,
            stops: true,
        }
    }
}

/// Whether a transition goes on with this word: with a statement or a label.
fn goes_on(word: Option<PlacedWord<'_>>) -> bool
    ensures { result ≡ cut.goes_on word.entry }
{
    match word {
        Some(word) => is_action(word) || name_of(word).is_some(),
        None => false,
    }
}

/// Whether this keyword begins a stimulus with a transition of its own.
fn is_stimulus(words: &[PlacedWord<'_>], lead: usize, word: PlacedWord<'_>) -> bool
    ensures { result ≡ cut.is_stimulus words.now lead word.entry }
{
    is_mark(word, Mark::Input) || (is_mark(word, Mark::Provided) && !is_condition(words, lead))
}

/// Whether `provided` begins the enabling condition of an input, and no continuous signal.
fn is_condition(words: &[PlacedWord<'_>], lead: usize) -> bool
    ensures { result ≡ cut.is_condition words.now lead }
{
    if lead == 0 {
        return false;
    }
    let before = lead - 1;
    match last_lead(words, before) {
        Some(input) => {
            is_mark_at(words, input, Mark::Input) && !has_semicolon(words, input, before)
        }
        None => false,
    }
}
