//! Answers of a decision, as far as they are literals.

ghost use Rattle.std.specs.Prelude.{◌≡◌, ◌≤◌, ◌<◌, length};
ghost use Rattle.std.specs.List.{prefix_len};
ghost use Rattle.sdl_warnings.specs.Answers.{alone, boolean, compared, have_numbers, in_relation, is_empty, is_no_colon, is_within, literal, meet, negated, number_in, overlap, range, range_at, related, relation_by, taken};
ghost use Rattle.sdl_warnings.specs.Words.{mark_in};

use crate::words::{is_mark, mark_of};
use parse_expressions::{PlacedWord, Word};
use sdl_tree::Mark;

/// What an answer takes.
#[derive(Clone, Copy)]
pub enum Taken {
    /// The numbers from the first to the last.
    Numbers(i64, i64),
    /// All numbers but one.
    Except(i64),
    Boolean(bool),
    /// It isn't known from the answer alone.
    Other,
}

/// How an answer compares.
#[derive(Clone, Copy)]
pub enum Relation {
    Equal,
    NotEqual,
    Less,
    LessOrEqual,
    Greater,
    GreaterOrEqual,
}

impl Taken {
    /// What the words of an answer take.
    pub fn of(words: &[PlacedWord<'_>]) -> Taken
        ensures { result ≡ taken words.now }
    {
        match words {
            [first, more @ ..] => match relation_of(*first) {
                Some(relation) => compared(relation, more),
                None => alone(words),
            },
            [] => Taken::Other,
        }
    }

    /// Whether a value is taken by both.
    pub fn overlaps(self, other: Taken) -> bool
        ensures { result ≡ overlap self other }
    {
        match (self, other) {
            (Taken::Numbers(first, last), Taken::Numbers(from, to)) => meet(first, last, from, to),
            (Taken::Numbers(first, last), Taken::Except(one)) => {
                first <= last && !is_within(one, first, last)
            }
            (Taken::Except(one), Taken::Numbers(first, last)) => {
                first <= last && !is_within(one, first, last)
            }
            (Taken::Except(_), Taken::Except(_)) => true,
            (Taken::Boolean(one), Taken::Boolean(two)) => one == two,
            _ => false,
        }
    }

    /// Whether it is a range without a value.
    pub fn is_empty(self) -> bool
        ensures { result ≡ is_empty self }
    {
        match self {
            Taken::Numbers(first, last) => last < first,
            _ => false,
        }
    }
}

/// Whether two ranges have the same number.
fn meet(first: i64, last: i64, from: i64, to: i64) -> bool
    ensures { result ≡ meet first last from to }
{
    have_numbers(first, last, from, to) && have_numbers(first, to, from, last)
}

/// Whether each of two ranges has a number.
fn have_numbers(first: i64, last: i64, from: i64, to: i64) -> bool
    ensures { result ≡ have_numbers first last from to }
{
    first <= last && from <= to
}

/// Whether a range has this number alone, or none.
fn is_within(one: i64, first: i64, last: i64) -> bool
    ensures { result ≡ is_within one first last }
{
    first >= one && one >= last
}

/// How an answer that begins with this word compares.
fn relation_of(word: PlacedWord<'_>) -> Option<Relation>
    ensures { result ≡ relation_by (mark_in word.entry) }
{
    match mark_of(word) {
        Some(Mark::Equal) => Some(Relation::Equal),
        Some(Mark::NotEqual) => Some(Relation::NotEqual),
        Some(Mark::Less) => Some(Relation::Less),
        Some(Mark::LessOrEqual) => Some(Relation::LessOrEqual),
        Some(Mark::Greater) => Some(Relation::Greater),
        Some(Mark::GreaterOrEqual) => Some(Relation::GreaterOrEqual),
        _ => None,
    }
}

/// What stands in this relation to the literal that words are.
fn compared(relation: Relation, words: &[PlacedWord<'_>]) -> Taken
    ensures { result ≡ compared relation words.now }
{
    match literal(words) {
        Some(value) => in_relation(relation, value),
        None => related(relation, boolean(words)),
    }
}

/// The numbers that stand in this relation to a number.
fn in_relation(relation: Relation, value: i64) -> Taken
    ensures { result ≡ in_relation relation value }
{
    match relation {
        Relation::Equal => Taken::Numbers(value, value),
        Relation::NotEqual => Taken::Except(value),
        Relation::Less if i64::MIN < value => Taken::Numbers(i64::MIN, value - 1),
        Relation::LessOrEqual => Taken::Numbers(i64::MIN, value),
        Relation::Greater if value < i64::MAX => Taken::Numbers(value + 1, i64::MAX),
        Relation::GreaterOrEqual => Taken::Numbers(value, i64::MAX),
        _ => Taken::Other,
    }
}

/// The Boolean that stands in this relation to one.
fn related(relation: Relation, truth: Option<bool>) -> Taken
    ensures { result ≡ related relation truth }
{
    match (relation, truth) {
        (Relation::Equal, Some(truth)) => Taken::Boolean(truth),
        (Relation::NotEqual, Some(truth)) => Taken::Boolean(!truth),
        _ => Taken::Other,
    }
}

/// What an answer takes that doesn't compare.
fn alone(words: &[PlacedWord<'_>]) -> Taken
    ensures { result ≡ alone words.now }
{
    if let Some(value) = literal(words) {
        return Taken::Numbers(value, value);
    }
    match boolean(words) {
        Some(truth) => Taken::Boolean(truth),
        None => range(words),
    }
}

/// The range between two literals.
fn range(words: &[PlacedWord<'_>]) -> Taken
    ensures { result ≡ range words.now }
{
    let at = before_colon(words);
    if at < words.len() {
        range_at(words, at)
    } else {
        Taken::Other
    }
}

/// How many words are before the first colon.
fn before_colon(words: &[PlacedWord<'_>]) -> usize
    ensures count { result ≡ prefix_len is_no_colon words.now }
    ensures within { result ≤ length words.now }
{
    let mut at = 0;
    while at < words.len() && is_no_colon(words[at]) {
        at += 1;
    }
    at
}

fn is_no_colon(word: PlacedWord<'_>) -> bool
    ensures { result ≡ is_no_colon word.entry }
{
    !is_mark(word, Mark::Colon)
}

/// The range from the literal before a word to that after it.
fn range_at(words: &[PlacedWord<'_>], at: usize) -> Taken
    requires { at < length words.now }
    ensures { result ≡ range_at at words.now }
{
    let first = literal(&words[..at]);
    let last = literal(&words[at + 1..]);
    match (first, last) {
        (Some(first), Some(last)) => Taken::Numbers(first, last),
        _ => Taken::Other,
    }
}

/// The Boolean that words are.
fn boolean(words: &[PlacedWord<'_>]) -> Option<bool>
    ensures { result ≡ boolean words.now }
{
    match words {
        [word] if is_mark(*word, Mark::True) => Some(true),
        [word] if is_mark(*word, Mark::False) => Some(false),
        _ => None,
    }
}

/// A number, with its sign if it has one.
fn literal(words: &[PlacedWord<'_>]) -> Option<i64>
    ensures { result ≡ literal words.now }
{
    match words {
        [word] => number_of(*word),
        [sign, word] if is_mark(*sign, Mark::Minus) => negated(number_of(*word)),
        _ => None,
    }
}

fn negated(value: Option<i64>) -> Option<i64>
    ensures { result ≡ negated value }
{
    value.map(|value| value.saturating_neg())
}

fn number_of(word: PlacedWord<'_>) -> Option<i64>
    ensures { result ≡ number_in word.entry }
{
    match word.word {
        Word::Number(value, _) => Some(value),
        _ => None,
    }
}
