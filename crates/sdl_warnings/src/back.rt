//! Words from a `join` back to its label.

ghost use Rattle.std.specs.Prelude.{◌≡◌, ◌≤◌, None, length, reverse, take};
ghost use Rattle.sdl_warnings.specs.Loops.{beginning, closed_after, ended_after, is_border, is_closed, is_label, is_next, leads_elsewhere, leads_out, leaves_answer, leaves_decision, over};
ghost use Rattle.sdl_warnings.specs.Words.{is_mark, is_name};

use crate::words::{is_mark, is_name};
use parse_expressions::PlacedWord;
use sdl_tree::Mark;

/// How far back it is gone: over so many ends of decisions and of parentheses whose begins come before.
#[derive(Clone, Copy)]
pub struct Back {
    pub decisions: usize,
    pub parentheses: usize,
}

/// Whether the words before `end` lead back to this label, and stay in the transition. Decisions that end there are passed
/// over.
pub fn is_closed(words: &[PlacedWord<'_>], end: usize, label: &str) -> bool
    requires { end ≤ length words.now }
    ensures { result ≡ is_closed label.now beginning None (reverse (take end words.now)) }
{
    let mut back = Back::BEGINNING;
    let mut next = None;
    let mut at = end;
    while at > 0 {
        at -= 1;
        let word = words[at];
        if back.is_label(word, next, label) {
            return back.decisions == 0;
        }
        if back.leads_out(word, next, label) {
            return false;
        }
        back = back.over(word);
        next = Some(word);
    }
    false
}

impl Back {
    const BEGINNING: Back = Back {
        decisions: 0,
        parentheses: 0,
    };

    /// Whether a word is this label.
    fn is_label(self, word: PlacedWord<'_>, next: Option<PlacedWord<'_>>, label: &str) -> bool
        ensures { result ≡ is_label label.now self next.entry word.entry }
    {
        self.parentheses == 0 && is_name(word, label) && is_next_mark(next, Mark::Colon)
    }

    /// Whether a word leads elsewhere than to the label, or the words before it are those of another transition.
    fn leads_out(self, word: PlacedWord<'_>, next: Option<PlacedWord<'_>>, label: &str) -> bool
        ensures { result ≡ leads_out label.now self next.entry word.entry }
    {
        is_border(word)
            || leads_elsewhere(word, next, label)
            || self.leaves_decision(word)
            || self.leaves_answer(word, next)
    }

    /// Whether the decision begins in which the words after it are, or its `else`.
    fn leaves_decision(self, word: PlacedWord<'_>) -> bool
        ensures { result ≡ leaves_decision self word.entry }
    {
        self.decisions == 0 && (is_mark(word, Mark::Decision) || is_mark(word, Mark::Else))
    }

    /// Whether the answer ends to which the words after it belong.
    fn leaves_answer(self, word: PlacedWord<'_>, next: Option<PlacedWord<'_>>) -> bool
        ensures { result ≡ leaves_answer self next.entry word.entry }
    {
        self.decisions == 0
            && self.parentheses == 0
            && is_mark(word, Mark::Close)
            && is_next_mark(next, Mark::Colon)
    }

    fn over(self, word: PlacedWord<'_>) -> Back
        ensures { result ≡ over self word.entry }
    {
        Back {
            decisions: ended_after(self.decisions, word),
            parentheses: closed_after(self.parentheses, word),
        }
    }
}

/// Whether a word ends a transition, or begins one.
fn is_border(word: PlacedWord<'_>) -> bool
    ensures { result ≡ is_border word.entry }
{
    is_mark(word, Mark::NextState)
        || is_mark(word, Mark::Stop)
        || is_mark(word, Mark::Start)
        || is_mark(word, Mark::Input)
        || is_mark(word, Mark::Save)
        || is_mark(word, Mark::Provided)
        || is_mark(word, Mark::State)
        || is_mark(word, Mark::EndState)
        || is_mark(word, Mark::Connection)
        || is_mark(word, Mark::EndConnection)
}

/// Whether a word is a `join` to another label.
fn leads_elsewhere(word: PlacedWord<'_>, next: Option<PlacedWord<'_>>, label: &str) -> bool
    ensures { result ≡ leads_elsewhere label.now next.entry word.entry }
{
    is_mark(word, Mark::Join) && !is_next_name(next, label)
}

fn is_next_mark(next: Option<PlacedWord<'_>>, mark: Mark) -> bool
    ensures { result ≡ is_next (is_mark mark) next.entry }
{
    match next {
        Some(next) => is_mark(next, mark),
        None => false,
    }
}

fn is_next_name(next: Option<PlacedWord<'_>>, name: &str) -> bool
    ensures { result ≡ is_next (is_name name.now) next.entry }
{
    match next {
        Some(next) => is_name(next, name),
        None => false,
    }
}

/// Over how many ends of decisions it is gone after a word.
fn ended_after(decisions: usize, word: PlacedWord<'_>) -> usize
    ensures { result ≡ ended_after decisions word.entry }
{
    if is_mark(word, Mark::EndDecision) {
        decisions.saturating_add(1)
    } else if is_mark(word, Mark::Decision) {
        decisions.saturating_sub(1)
    } else {
        decisions
    }
}

/// Over how many ends of parentheses it is gone after a word.
fn closed_after(parentheses: usize, word: PlacedWord<'_>) -> usize
    ensures { result ≡ closed_after parentheses word.entry }
{
    if is_mark(word, Mark::Close) {
        parentheses.saturating_add(1)
    } else if is_mark(word, Mark::Open) {
        parentheses.saturating_sub(1)
    } else {
        parentheses
    }
}
