//! Where words are among the words of a text, by their numbers from 0.

ghost use Rattle.std.specs.Prelude.{◌≡◌, ◌<◌, IfSome, length, slice_get};
ghost use Rattle.explain_syntax.specs.Scan as scan;

use crate::rests::words::{is_at, is_lead, is_mark, is_mark_at, is_stimulus_or_end};
use parse_expressions::PlacedWord;
use sdl_lex::Place;
use sdl_tree::Mark;

/// The word at this place.
pub fn word_at(words: &[PlacedWord<'_>], place: Place) -> Option<usize>
    ensures number { result ≡ scan.word_at place words.now }
    ensures within { IfSome result (λ at. at < length words.now) }
{
    for (at, word) in words.iter().enumerate() {
        if is_at(*word, place) {
            return Some(at);
        }
    }
    None
}

/// Whether the word of the number `at` is this mark, and doesn't come before the one of the number `from`.
fn is_mark_from(word: PlacedWord<'_>, mark: Mark, at: usize, from: usize) -> bool
    ensures { result ≡ scan.is_mark_from mark from at word.entry }
{
    from <= at && is_mark(word, mark)
}

/// The first semicolon from a word on.
pub fn semicolon_after(words: &[PlacedWord<'_>], from: usize) -> Option<usize>
    ensures number { result ≡ scan.semicolon_after words.now from }
    ensures within { IfSome result (λ at. at < length words.now) }
{
    for (at, word) in words.iter().enumerate() {
        if is_mark_from(*word, Mark::Semicolon, at, from) {
            return Some(at);
        }
    }
    None
}

/// Whether a semicolon is between two words.
pub fn has_semicolon(words: &[PlacedWord<'_>], from: usize, to: usize) -> bool
    ensures { result ≡ scan.has_semicolon words.now from to }
{
    match semicolon_after(words, from) {
        Some(at) => at < to,
        None => false,
    }
}

/// Whether the word of the number `at` begins a part of the text, and doesn't come after the one of the number `to`.
fn is_lead_to(word: PlacedWord<'_>, at: usize, to: usize) -> bool
    ensures { result ≡ scan.is_lead_to to at word.entry }
{
    at <= to && is_lead(word)
}

/// The last word up to this one that begins a part of the text.
pub fn last_lead(words: &[PlacedWord<'_>], to: usize) -> Option<usize>
    ensures { result ≡ scan.last_lead words.now to }
{
    let mut found: Option<usize> = None;
    for (at, word) in words.iter().enumerate() {
        found = later_lead(*word, found, at, to);
    }
    found
}

/// The number of a word that begins a part of the text, and else the one that was found before.
fn later_lead(word: PlacedWord<'_>, found: Option<usize>, at: usize, to: usize) -> Option<usize>
    ensures { result ≡ scan.later_lead to found at word.entry }
{
    if is_lead_to(word, at, to) {
        Some(at)
    } else {
        found
    }
}

/// The first word from this one on that begins another stimulus, or ends those of a state.
pub fn next_end(words: &[PlacedWord<'_>], from: usize) -> Option<usize>
    ensures { result ≡ scan.next_end words.now from }
{
    for (at, word) in words.iter().enumerate() {
        if ends_stimulus_from(words, *word, at, from) {
            return Some(at);
        }
    }
    None
}

/// Whether a stimulus ends before the word of the number `at`, which doesn't come before the one of the number `from`.
fn ends_stimulus_from(
    words: &[PlacedWord<'_>],
    word: PlacedWord<'_>,
    at: usize,
    from: usize,
) -> bool
    requires { at < length words.now }
    ensures { result ≡ scan.ends_stimulus_from words.now from at word.entry }
{
    from <= at && ends_stimulus(words, at, word)
}

/// Whether a stimulus ends before this word. The priority of a continuous signal has a number, and no input.
fn ends_stimulus(words: &[PlacedWord<'_>], at: usize, word: PlacedWord<'_>) -> bool
    requires { at < length words.now }
    ensures { result ≡ scan.ends_stimulus words.now at word.entry }
{
    if is_mark(word, Mark::Priority) {
        is_mark_at(words, at + 1, Mark::Input)
    } else {
        is_stimulus_or_end(word)
    }
}

/// The last `decision` up to a word that no `enddecision` ends before it.
#[tactic(auto, using(crate::proofs::ScanLemmas::one_back, crate::proofs::ScanLemmas::so_many))]
pub fn opening_before(words: &[PlacedWord<'_>], at: usize) -> Option<usize>
    requires { at < length words.now }
    ensures { result ≡ scan.opening_before words.now at }
{
    let mut ended = 0;
    let mut behind = at + 1;
    'back: while behind > 0 {
        behind -= 1;
        let word = words[behind];
        if opens_decision(word, ended) {
            return Some(behind);
        }
        ended = ended_before(word, ended);
    }
    None
}

/// Whether a word is a `decision` that none of so many `enddecision` behind it ends.
fn opens_decision(word: PlacedWord<'_>, ended: usize) -> bool
    ensures { result ≡ scan.opens_decision ended word.entry }
{
    ended == 0 && is_mark(word, Mark::Decision)
}

/// How many `enddecision` end a decision before a word, by how many do so behind it.
fn ended_before(word: PlacedWord<'_>, ended: usize) -> usize
    ensures { result ≡ scan.ended_before ended word.entry }
{
    if is_mark(word, Mark::EndDecision) {
        ended.saturating_add(1)
    } else if is_mark(word, Mark::Decision) {
        ended.saturating_sub(1)
    } else {
        ended
    }
}

/// The `enddecision` with which the decision ends that begins at a word.
pub fn end_after(words: &[PlacedWord<'_>], from: usize) -> Option<usize>
    ensures { result ≡ scan.end_after words.now from }
{
    let mut depth = 0;
    for (at, word) in words.iter().enumerate() {
        if ends_decision(*word, depth, at, from) {
            return Some(at);
        }
        depth = depth_after(*word, depth, at, from);
    }
    None
}

/// Whether the word of the number `at` ends the outermost of so many decisions that are open.
fn ends_decision(word: PlacedWord<'_>, depth: usize, at: usize, from: usize) -> bool
    ensures { result ≡ scan.ends_decision from depth at word.entry }
{
    depth <= 1 && is_mark_from(word, Mark::EndDecision, at, from)
}

/// How many decisions are open after the word of the number `at`.
fn depth_after(word: PlacedWord<'_>, depth: usize, at: usize, from: usize) -> usize
    ensures { result ≡ scan.depth_after from depth at word.entry }
{
    if is_mark_from(word, Mark::Decision, at, from) {
        depth.saturating_add(1)
    } else if is_mark_from(word, Mark::EndDecision, at, from) {
        depth.saturating_sub(1)
    } else {
        depth
    }
}
