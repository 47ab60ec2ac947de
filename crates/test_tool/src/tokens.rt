//! Tokens and their places.

use sdl_lex::{Kind, LexError, Place, lex, place_of};
use std::alloc::{AllocError, Global};
use std::test::Fail;

const TEXT: &[u8] = b"task n_1 := 9a /*/ :=' */ 'it''s' <= 007/=//*/*/*\tx\r\n=>=;";

/// The tokens of that text: the kind of each, where it begins, and where it ends.
static TOKENS: [(Kind, usize, usize); 15] = [
    (Kind::Word, 0, 4),
    (Kind::Word, 5, 8),
    (Kind::Mark, 9, 11),
    (Kind::Number(9), 12, 13),
    (Kind::Word, 13, 14),
    (Kind::Text, 26, 33),
    (Kind::Mark, 34, 36),
    (Kind::Number(7), 37, 40),
    (Kind::Mark, 40, 42),
    (Kind::Mark, 42, 43),
    (Kind::Mark, 48, 49),
    (Kind::Word, 50, 51),
    (Kind::Mark, 53, 55),
    (Kind::Mark, 55, 56),
    (Kind::Mark, 56, 57),
];

#[test]
fn finds_each_kind_of_token(rt: HostRuntime) -> Result<(), Fail> {
    let tokens = lex(rt.alloc(), TEXT)?;
    assert!(rt; tokens.len() == TOKENS.len());
    for (token, (kind, start, end)) in tokens.iter().zip(&TOKENS) {
        assert!(rt; token.kind == *kind, "at {start}");
        assert!(rt; token.start == *start && token.end == *end, "at {start}");
    }
    Ok(())
}

/// Texts, each with the line of its first fault.
static FAULTS: [(&[u8], &str); 8] = [
    (b"a\n b # '", "lex 2:4 BadByte"),
    (b"\xc3\xa4", "lex 1:1 BadByte"),
    (b"a\r\n\n /*/ '", "lex 3:2 OpenComment"),
    (b"/* **", "lex 1:1 OpenComment"),
    (b"'a\n''", "lex 1:1 OpenString"),
    (b"x '''", "lex 1:3 OpenString"),
    (
        b"9223372036854775807\n09223372036854775808",
        "lex 2:1 NumberTooBig",
    ),
    (b"99999999999999999999999999 #", "lex 1:1 NumberTooBig"),
];

#[test]
fn tells_the_first_fault_and_its_place(rt: HostRuntime) -> Result<(), Fail> {
    for (text, line) in &FAULTS {
        let told = told(rt.alloc(), text)?;
        assert!(rt; told.as_str() == *line, "{line}");
    }
    Ok(())
}

#[test]
fn reads_names_of_255_bytes(rt: HostRuntime) -> Result<(), Fail> {
    let name = [b'a'; 256];
    let told = told(rt.alloc(), &name)?;
    assert!(rt; told.as_str() == "lex 1:1 NameTooLong");
    assert!(rt; lex(rt.alloc(), &name[1..]).is_ok());
    Ok(())
}

/// The line that tells the fault of a text; of a text that has none it is empty.
fn told(alloc: Global, text: &[u8]) -> Result<String, AllocError> {
    match lex(alloc, text) {
        Ok(_) => Ok(String::new(alloc)),
        Err(error) => format!(in alloc; "{error}"),
    }
}

#[test]
fn reads_a_mebibyte_and_no_more(rt: HostRuntime) -> Result<(), Fail> {
    let mut text = vec![in rt.alloc(); b' '; 1_048_576]?;
    assert!(rt; lex(rt.alloc(), &text)?.is_empty());
    text.push(b'#')?;
    assert!(rt; lex(rt.alloc(), &text).err() == Some(LexError::TooLong));
    Ok(())
}

#[test]
fn counts_lines_by_lf_alone(rt: HostRuntime) -> Result<(), Fail> {
    let text = b"a\r\n\nbc";
    let places = [(0, 1, 1), (2, 1, 3), (3, 2, 1), (4, 3, 1), (6, 3, 3)];
    for (offset, line, column) in places {
        let place = Place { line, column };
        assert!(rt; place_of(text, offset) == place, "at {offset}");
    }
    Ok(())
}

const PLACE: Place = Place {
    line: 3,
    column: 14,
};

/// Refusals with their lines.
static LINES: [(LexError, &str); 7] = [
    (LexError::TooLong, "lex 1:1 TooLong"),
    (LexError::BadByte(PLACE), "lex 3:14 BadByte"),
    (LexError::OpenComment(PLACE), "lex 3:14 OpenComment"),
    (LexError::OpenString(PLACE), "lex 3:14 OpenString"),
    (LexError::NumberTooBig(PLACE), "lex 3:14 NumberTooBig"),
    (LexError::NameTooLong(PLACE), "lex 3:14 NameTooLong"),
    (LexError::Memory, "lex Memory"),
];

#[test]
fn writes_the_line_of_a_refusal(rt: HostRuntime) -> Result<(), Fail> {
    for (error, line) in &LINES {
        let written = format!(in rt.alloc(); "{error}")?;
        assert!(rt; written.as_str() == *line, "{line}");
    }
    Ok(())
}

#[test]
fn has_a_place_but_for_want_of_memory(rt: HostRuntime) {
    for (error, line) in &LINES {
        let is_placed = error.place().is_some();
        assert!(rt; is_placed == (*error != LexError::Memory), "{line}");
    }
}
