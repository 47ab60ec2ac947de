//! Sentences about habits from other languages, and about words at a place that is not theirs.

use crate::habit::SORT;
use crate::keyword::keyword_advice;
use crate::lines::{Advice, Around, mark_of, name_of};
use crate::open::missing_sentence;
use crate::wanted_mark::mark_sentence;
use crate::wanted_name::name_sentence;
use parse_expressions::{PlacedWord, Wanted, Word};
use sdl_tree::Mark;
use std::alloc::{AllocError, Global};

/// Gives the advice about the words around a place, where something else has to stand. None if no habit is known.
pub fn foreign_advice(
    alloc: Global,
    around: &Around<'_>,
    wanted: &Wanted,
) -> Result<Option<Advice>, AllocError> {
    if let Some(sentence) = pair_sentence(around, wanted).or(word_sentence(around)) {
        return Ok(Some(Advice::alone(alloc, sentence)?));
    }
    if let Some(advice) = keyword_advice(alloc, around, wanted)? {
        return Ok(Some(advice));
    }
    match foreign_sentence(around, wanted) {
        Some(sentence) => Ok(Some(Advice::alone(alloc, sentence)?)),
        None => Ok(None),
    }
}

/// Gives the sentence about the words around a place.
fn foreign_sentence(around: &Around<'_>, wanted: &Wanted) -> Option<&'static str> {
    match wanted {
        Wanted::Mark(mark) => missing_sentence(around, *mark).or(mark_sentence(around, *mark)),
        Wanted::Name => name_sentence(around),
        Wanted::Expression => expression_sentence(around),
        _ => None,
    }
}

/// Gives the sentence about a bare `end`, or about letters that follow a number at once.
fn word_sentence(around: &Around<'_>) -> Option<&'static str> {
    if is_end(name_of(around.at)) || is_end(name_of(around.before)) {
        Some(BARE_END)
    } else if around.has_unit() {
        Some(NUMBER)
    } else if is_type(around) {
        Some(SORT)
    } else {
        None
    }
}

const BARE_END: &str =
    "`end` is a name. What ends has a keyword of its own: `endsystem`, `endblock`, `endprocess`, \
    `endstate`, `endchannel`, `endconnection` or `enddecision`.";

/// Whether `value type` or `object type` is here, with which the standard defines sorts.
fn is_type(around: &Around<'_>) -> bool {
    let is_kind = matches!(name_of(around.at), Some("value" | "object"));
    is_kind
        && matches!(
            around.after,
            Some(PlacedWord {
                word: Word::LeftOut("type", _),
                ..
            })
        )
}

/// The sentence about letters that follow a number at once.
const NUMBER: &str = "A number has decimal digits alone: no unit, no `_`, and no other base.";

/// Gives the sentence about two marks that are one in another language: first what is said of them in an expression.
fn pair_sentence(around: &Around<'_>, wanted: &Wanted) -> Option<&'static str> {
    if matches!(wanted, Wanted::Expression) {
        pair_among(around, &PAIRS_OF_EXPRESSIONS).or(pair_among(around, &PAIRS))
    } else {
        pair_among(around, &PAIRS)
    }
}

fn pair_among(around: &Around<'_>, pairs: &[(Mark, Mark, &'static str)]) -> Option<&'static str> {
    for (first, second, sentence) in pairs {
        if around.has_pair(*first, *second) {
            return Some(*sentence);
        }
    }
    None
}

/// The sentence about what would be a comment in another language.
pub const COMMENT: &str = "A comment is written `/* .. */`. Neither `//` nor `--` begins one.";

const NO_SHORT_TASK: &str = "There is no `++`, `+=` or `-=`. Write `task n := n + 1;`.";

static PAIRS_OF_EXPRESSIONS: [(Mark, Mark, &str); 4] = [
    (
        Mark::Slash,
        Mark::Slash,
        "`/` divides Integers, and rounds towards zero. `//` is no operator, and begins no comment: that is written \
         `/* .. */`.",
    ),
    (
        Mark::Minus,
        Mark::Minus,
        "One sign alone can stand before an operand: write `-(-n)`. A comment is written `/* .. */`, and not `--`.",
    ),
    (
        Mark::Minus,
        Mark::Greater,
        "`=>` says that one Boolean implies another, and not `->`.",
    ),
    (
        Mark::Equal,
        Mark::Less,
        "`<=` asks whether a value is no greater than another, and not `=<`.",
    ),
];

static PAIRS: [(Mark, Mark, &str); 10] = [
    (Mark::Slash, Mark::Slash, COMMENT),
    (Mark::Minus, Mark::Minus, COMMENT),
    (
        Mark::Equal,
        Mark::Equal,
        "`=` asks whether two values are equal, and not `==`.",
    ),
    (
        Mark::Less,
        Mark::Greater,
        "`/=` asks whether two values differ, and not `<>`.",
    ),
    (Mark::Plus, Mark::Plus, NO_SHORT_TASK),
    (Mark::Plus, Mark::Equal, NO_SHORT_TASK),
    (Mark::Minus, Mark::Equal, NO_SHORT_TASK),
    (
        Mark::Minus,
        Mark::Greater,
        "There are no arrows. A keyword says what is done: `nextstate s;`, `output a to p;`.",
    ),
    (
        Mark::Asterisk,
        Mark::Asterisk,
        "There are no powers. Multiply by `*`.",
    ),
    (
        Mark::Asterisk,
        Mark::Slash,
        "`*/` ends a comment, and none is open here: comments don't nest, so the first `*/` ends one.",
    ),
];

fn is_end(name: Option<&str>) -> bool {
    match name {
        Some(name) => name.eq_ignore_ascii_case("end"),
        None => false,
    }
}

/// Gives the sentence for a place where an expression has to stand.
fn expression_sentence(around: &Around<'_>) -> Option<&'static str> {
    match (mark_of(around.before), mark_of(around.at)) {
        (Some(Mark::To), Some(Mark::Env)) => Some(
            "`env` can't follow `to`. Leave `to env` away: a signal that no process gets goes to the environment, if a \
             path leads there or the system has no channels.",
        ),
        (Some(Mark::Open), Some(Mark::Close)) => Some(
            "A value has to stand here. Leave the parentheses away if there is none: `output a;`, `create P;`.",
        ),
        (Some(Mark::Open), Some(Mark::Else)) => Some("`else` has no parentheses: `else: stop;`."),
        (
            Some(Mark::And | Mark::Or),
            Some(Mark::Less | Mark::LessOrEqual | Mark::Greater | Mark::GreaterOrEqual),
        ) => Some(
            "What is compared has to stand here, too: `n > 0 and n < 5`. An answer from 1 to 4 is a range: `(1:4):`.",
        ),
        (_, Some(Mark::Create)) => Some(
            "`create` is an action of its own: `create P;`. After it `offspring` is the Pid of the new instance.",
        ),
        (_, Some(Mark::Plus)) => Some("No plus sign is before an operand: write `n` alone."),
        (
            _,
            Some(
                Mark::Mod
                | Mark::Rem
                | Mark::And
                | Mark::Or
                | Mark::Xor
                | Mark::Asterisk
                | Mark::Slash
                | Mark::Implies,
            ),
        ) => Some("This operator stands between two operands: `n mod 5`, `a and b`."),
        (Some(Mark::Minus | Mark::Not), Some(Mark::Minus | Mark::Not)) => Some(
            "One sign alone can stand before an operand. Write parentheses: `-(-n)`, `not (not b)`.",
        ),
        _ => None,
    }
}
