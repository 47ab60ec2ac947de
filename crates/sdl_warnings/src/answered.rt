//! The answers of a decision.

ghost use Rattle.std.specs.Prelude.{◌≡◌, ◌+◌, ◌^◌, ◌<◌, ◌++◌, ◌||◌, [], IfOk, OnOk, if◌then◌else◌};
ghost use Rattle.sdl_warnings.specs.Decisions.{answered, answers, beginning, closes, ended_at, ends, has_else, inner_after, inside_after, listed, opens, parts};
ghost use Rattle.sdl_tree.specs.declared.mark.Mark.TheVariants as mark;
ghost use Rattle.sdl_warnings.specs.Words.{is_mark_by};

use crate::answers::Taken;
use crate::colons::depth_after;
use crate::words::{is_mark, mark_of};
use parse_expressions::PlacedWord;
use sdl_lex::Place;
use sdl_tree::Mark;
use std::alloc::{AllocError, Global};

/// An answer, and where it is.
#[derive(Clone, Copy)]
pub struct Answered {
    pub taken: Taken,
    pub place: Place,
}

/// Where the words of a decision have led: so many decisions in it and so many parentheses aren't ended, and the last word
/// was this mark.
#[derive(Clone, Copy)]
pub struct Inside {
    pub inner: usize,
    pub depth: usize,
    pub before: Option<Mark>,
}

/// The answers of the decision that begins before these words.
pub fn answers(alloc: Global, words: &[PlacedWord<'_>]) -> Result<Vec<Answered>, AllocError>
    ensures { IfOk result (λ found. found.items ≡ answers beginning words.now) }
{
    let mut found = Vec::new(alloc);
    let mut inside = Inside::BEGINNING;
    let mut rest = words;
    'rest: while let [word, more @ ..] = rest {
        if inside.ends(*word) {
            return Ok(found);
        }
        if inside.opens(*word) {
            add_listed(&mut found, more)?;
        }
        inside = inside.after(*word);
        rest = more;
    }
    Ok(found)
}

/// Whether the decision that begins before these words has an `else`.
pub fn has_else(words: &[PlacedWord<'_>]) -> bool
    ensures { result ≡ has_else beginning words.now }
{
    let mut inside = Inside::BEGINNING;
    for word in words {
        if inside.ends(*word) {
            return false;
        }
        if inside.inner == 0 && is_mark(*word, Mark::Else) {
            return true;
        }
        inside = inside.after(*word);
    }
    false
}

/// Adds the answers with which these words begin, up to the end of their parenthesis.
fn add_listed(found: &mut Vec<Answered>, words: &[PlacedWord<'_>]) -> Result<(), AllocError>
    ensures { OnOk result (found.new.items ≡ found.old.items ++ listed 0 [] words.now) }
{
    let mut begin = 0;
    let mut at = 0;
    let mut depth: usize = 0;
    while at < words.len() {
        let word = words[at];
        if closes(depth, word) {
            return add_answer(found, &words[begin..at]);
        }
        add_if_ended(found, &words[begin..at], depth, word)?;
        begin = begin_after(begin, at, depth, word);
        depth = depth_after(depth, word);
        at += 1;
    }
    Ok(())
}

/// Adds the answer of these words, if it ends with the next word.
fn add_if_ended(
    found: &mut Vec<Answered>,
    words: &[PlacedWord<'_>],
    depth: usize,
    word: PlacedWord<'_>,
) -> Result<(), AllocError>
    ensures { OnOk result (found.new.items ≡ found.old.items ++ ended_at depth words.now word.entry) }
{
    if parts(depth, word) {
        add_answer(found, words)
    } else {
        Ok(())
    }
}

/// Where the answer begins to which the words after `at` belong.
fn begin_after(begin: usize, at: usize, depth: usize, word: PlacedWord<'_>) -> usize
    requires { at < 2 ^ 63 }
    ensures { result ≡ (if parts depth word.entry then at + 1 else begin) }
{
    if parts(depth, word) { at + 1 } else { begin }
}

/// Whether the answers end with a word.
fn closes(depth: usize, word: PlacedWord<'_>) -> bool
    ensures { result ≡ closes depth word.entry }
{
    depth == 0 && is_mark(word, Mark::Close)
}

/// Whether another answer begins after a word.
fn parts(depth: usize, word: PlacedWord<'_>) -> bool
    ensures { result ≡ parts depth word.entry }
{
    depth == 0 && is_mark(word, Mark::Comma)
}

/// Adds the answer of these words.
fn add_answer(found: &mut Vec<Answered>, words: &[PlacedWord<'_>]) -> Result<(), AllocError>
    ensures { OnOk result (found.new.items ≡ found.old.items ++ answered words.now) }
{
    if let [first, ..] = words {
        found.push(Answered {
            taken: Taken::of(words),
            place: first.place,
        })?;
    }
    Ok(())
}

impl Inside {
    /// Where a decision begins.
    const BEGINNING: Inside = Inside {
        inner: 0,
        depth: 0,
        before: None,
    };

    fn after(self, word: PlacedWord<'_>) -> Inside
        ensures { result ≡ inside_after self word.entry }
    {
        Inside {
            inner: inner_after(self.inner, word),
            depth: depth_after(self.depth, word),
            before: mark_of(word),
        }
    }

    /// Whether the decision ends with a word.
    fn ends(self, word: PlacedWord<'_>) -> bool
        ensures { result ≡ ends self word.entry }
    {
        self.inner == 0 && is_mark(word, Mark::EndDecision)
    }

    /// Whether answers of the decision come after a word: a parenthesis that opens after a semicolon or a colon.
    fn opens(self, word: PlacedWord<'_>) -> bool
        ensures { result ≡ opens self word.entry }
    {
        self.inner == 0 && self.depth == 0 && is_mark(word, Mark::Open) && self.goes_on()
    }

    #[tactic(auto, unfolding(parse_expressions::specs::Reading::same_mark))]
    fn goes_on(self) -> bool
        ensures { result ≡ (is_mark_by mark.Semicolon self.before || is_mark_by mark.Colon self.before) }
    {
        match self.before {
            Some(mark) => mark == Mark::Semicolon || mark == Mark::Colon,
            None => false,
        }
    }
}

/// How many decisions that begin in a decision aren't ended after a word.
fn inner_after(inner: usize, word: PlacedWord<'_>) -> usize
    ensures { result ≡ inner_after inner word.entry }
{
    if is_mark(word, Mark::Decision) {
        inner.saturating_add(1)
    } else if is_mark(word, Mark::EndDecision) {
        inner.saturating_sub(1)
    } else {
        inner
    }
}
