//! Sentences about a text that is no specification.

use crate::byte::byte_sentence;
use crate::foreign::{COMMENT, foreign_advice};
use crate::left_out::left_out_sentence;
use crate::lines::{Advice, Around, Excerpt, about_marked, mark_of};
use crate::memory::NO_MEMORY;
use parse_expressions::Wanted;
use sdl_lex::{LexError, Place};
use sdl_parse::ParseError;
use sdl_tree::Mark;
use std::alloc::{AllocError, Global};

/// Gives the advice on a text that is no specification. `shown` is the part of it that is shown.
pub fn parse_advice(
    alloc: Global,
    text: &[u8],
    error: &ParseError,
    shown: &Option<Excerpt<'_>>,
) -> Result<Advice, AllocError> {
    match error {
        ParseError::Lex(error) => lex_advice(alloc, *error, shown),
        ParseError::Expected(place, wanted) => {
            let around = Around::of(alloc, text, *place)?;
            expected_advice(alloc, &around, wanted, shown)
        }
        ParseError::LeftOut(place, word) => { left_out_advice(alloc, text, *place, word.as_str()) }
        ParseError::TooDeep(_) => about_marked(alloc, shown, TOO_DEEP),
        ParseError::Memory => Advice::alone(alloc, NO_MEMORY),
    }
}

fn lex_advice(
    alloc: Global,
    error: LexError,
    shown: &Option<Excerpt<'_>>,
) -> Result<Advice, AllocError> {
    match (error, shown) {
        (LexError::NumberTooBig(_), _) => { about_marked(alloc, shown, lex_sentence(error)) }
        (LexError::BadByte(_) | LexError::OpenString(_), Some(excerpt))
            if follows_comment(excerpt.before) => { Advice::alone(alloc, COMMENT) }
        (LexError::BadByte(_), Some(excerpt)) => {
            Advice::alone(alloc, byte_sentence(excerpt.before, excerpt.behind))
        }
        _ => Advice::alone(alloc, lex_sentence(error)),
    }
}

/// Whether something that is a comment in other languages begins in front of a place in its line.
fn follows_comment(before: &[u8]) -> bool {
    before.windows(2).any(|pair| matches!(pair, b"//" | b"--"))
}

fn expected_advice(
    alloc: Global,
    around: &Around<'_>,
    wanted: &Wanted,
    shown: &Option<Excerpt<'_>>,
) -> Result<Advice, AllocError> {
    if is_in_comment(shown) {
        return Advice::alone(alloc, NESTED);
    }
    if let Some(advice) = foreign_advice(alloc, around, wanted)? {
        return Ok(advice);
    }
    match wanted {
        Wanted::Mark(_) | Wanted::ThisName(_) => {
            Advice::about(alloc, wanted.text(), expected_sentence(wanted))
        }
        Wanted::Name if is_word_marked(shown) => { about_marked(alloc, shown, KEYWORD_AS_NAME) }
        _ => Advice::alone(alloc, expected_sentence(wanted)),
    }
}

/// Whether a place follows the end of a comment in which another one seems to begin.
fn is_in_comment(shown: &Option<Excerpt<'_>>) -> bool {
    let Some(excerpt) = shown else {
        return false;
    };
    let before = excerpt.before.trim_ascii_end();
    let opened = before
        .windows(2)
        .filter(|pair| matches!(*pair, b"/*"))
        .count();
    let closed = before
        .windows(2)
        .filter(|pair| matches!(*pair, b"*/"))
        .count();
    before.ends_with(b"*/") && opened > closed
}

const NESTED: &str =
    "The comment before this has ended: comments don't nest, so the first `*/` ends one.";

/// Of a character string the refusal tells a word that doesn't stand in the text.
fn left_out_advice(
    alloc: Global,
    text: &[u8],
    place: Place,
    word: &str,
) -> Result<Advice, AllocError> {
    let around = Around::of(alloc, text, place)?;
    let before = mark_of(around.before);
    if word == "text" {
        return Advice::alone(alloc, text_sentence(before));
    }
    if word == "provided" || is_construct(before, word) || !wants_name(&around) {
        return Advice::about(alloc, word, left_out_sentence(word));
    }
    Advice::about(alloc, word, LEFT_OUT_AS_NAME)
}

/// Gives the sentence about a character string after this word.
fn text_sentence(before: Option<Mark>) -> &'static str {
    match before {
        Some(Mark::Task) => {
            "A task in words isn't run. Write what it does, as in `task n := n + 1;`, or make a comment of it: \
             `/* .. */`."
        }
        Some(Mark::Decision) => {
            "A question in words isn't run. Ask for a value: `decision n > 0; (true): stop; else: enddecision;`."
        }
        _ => left_out_sentence("text"),
    }
}

/// Whether a word that is left out begins a construct after this keyword, at the place of a name.
fn is_construct(before: Option<Mark>, word: &str) -> bool {
    match before {
        Some(Mark::Input) => word == "none",
        Some(Mark::Dcl) => matches!(word, "exported" | "revealed"),
        Some(Mark::System | Mark::Block | Mark::Process) => word == "type",
        Some(Mark::Create | Mark::Output) => word == "this",
        Some(Mark::Task) => matches!(word, "call" | "export" | "import" | "view" | "if"),
        _ => false,
    }
}

/// Whether a name has to be at a place: after a keyword that wants one, or after a comma of its list.
fn wants_name(around: &Around<'_>) -> bool {
    match mark_of(around.before) {
        Some(Mark::Comma) => has_names(around.leading),
        before => has_name(before),
    }
}

/// Whether a list of names follows this word.
fn has_names(leading: Option<Mark>) -> bool {
    matches!(
        leading,
        Some(
            Mark::Signal
                | Mark::SignalList
                | Mark::SignalSet
                | Mark::Synonym
                | Mark::Dcl
                | Mark::Fpar
                | Mark::Timer
                | Mark::State
                | Mark::Input
                | Mark::Save
                | Mark::With
        )
    )
}

/// Whether a name has to follow this word.
fn has_name(before: Option<Mark>) -> bool {
    matches!(
        before,
        Some(
            Mark::System
                | Mark::Block
                | Mark::Process
                | Mark::Channel
                | Mark::Connect
                | Mark::Connection
                | Mark::Signal
                | Mark::SignalList
                | Mark::SignalSet
                | Mark::Synonym
                | Mark::Dcl
                | Mark::Fpar
                | Mark::Timer
                | Mark::State
                | Mark::NextState
                | Mark::Join
                | Mark::Input
                | Mark::Save
                | Mark::Output
                | Mark::Create
                | Mark::Task
                | Mark::With
        )
    )
}

/// Whether a word is marked, and no number or mark.
fn is_word_marked(shown: &Option<Excerpt<'_>>) -> bool {
    let Some(excerpt) = shown else {
        return false;
    };
    match excerpt.behind.first() {
        Some(byte) => byte.is_ascii_alphabetic(),
        None => false,
    }
}

/// The sentence about a word that is left out and stands at the place of a name.
const LEFT_OUT_AS_NAME: &str =
    "is a word of SDL, though this language leaves it out, and so it can't be a name. Choose another.";

/// The sentence about a keyword that stands at the place of a name.
const KEYWORD_AS_NAME: &str =
    "is a keyword, and a name has to stand here. Choose another word for a name; or what is before it is wrong, as is \
     a `,` for a `;`.";

/// The sentence about a parenthesis or a decision that opens inside of too many others.
const TOO_DEEP: &str =
    "opens inside of 64 other parentheses and decisions. Give an inner expression to a variable by a task before, or \
     put an inner part into a connection and go there by a join.";

/// Gives the sentence about a text without tokens.
fn lex_sentence(error: LexError) -> &'static str {
    match error {
        LexError::TooLong => {
            "The text is too long: a specification may have 1,048,576 bytes, and with its script 2,097,152. Leave \
             something out."
        }
        LexError::BadByte(_) => {
            "No word, number or mark begins with this byte. Take it away, or put it into a comment, `/* .. */`."
        }
        LexError::OpenComment(_) => {
            "This comment isn't closed. Write `*/` where it ends. A line `%script` ends the specification, also in a \
             comment."
        }
        LexError::OpenString(_) => {
            "This character string isn't closed. Write `'` where it ends; a quote inside of it is written twice."
        }
        LexError::NumberTooBig(_) => {
            "is past 9223372036854775807, the greatest number. Write a smaller one."
        }
        LexError::NameTooLong(_) => {
            "This word has more than 255 bytes. Choose a shorter one wherever it stands."
        }
        LexError::Memory => NO_MEMORY,
    }
}

/// Gives the sentence about a place at which something else has to stand.
fn expected_sentence(wanted: &Wanted) -> &'static str {
    match wanted {
        Wanted::Mark(Mark::System) =>
            "begins a specification: `system S;`. Comments alone can be before it.",
        Wanted::Mark(_) => { "has to stand here, or something that can come before it." }
        Wanted::Name => "A name has to stand here.",
        Wanted::Number => "A number has to stand here: a priority is no expression.",
        Wanted::Text => "A character string, `'..'`, has to stand here, after `comment`.",
        Wanted::Expression => "An expression has to stand here.",
        Wanted::Action => "An action or a terminator has to stand here, after its label.",
        Wanted::Point => {
            "An end of the channel has to stand here: `env`, or the name of a block or a process."
        }
        Wanted::End => {
            "The specification is over before this. Take it away, or write a line `%script` before a script."
        }
        Wanted::ThisName(_) => {
            "is the name that has to stand here, since it is the name of what ends. Write it, or write none."
        }
    }
}
