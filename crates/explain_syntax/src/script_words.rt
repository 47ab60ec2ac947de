//! The words of a line of a script.

use sdl_lex::is_word_byte;
use std::str;

/// In which column the time is.
pub fn time_column(line: &[u8]) -> usize {
    spaces_len(line).saturating_add(1)
}

/// In which column the word after the time is.
pub fn name_column(line: &[u8]) -> usize {
    let time = from_column(line, time_column(line));
    let after = skipped(time, digits_len(time));
    column_in(line, skipped(after, spaces_len(after)))
}

/// The signal that a line names.
pub fn name_in(line: &[u8]) -> &str {
    word_in(from_column(line, name_column(line)))
}

/// In which column the name of a process is, after `to`, if the line ends with both.
pub fn receiver_column(line: &[u8]) -> Option<usize> {
    let line = line.trim_ascii_end();
    let len = line
        .iter()
        .rev()
        .take_while(|byte| is_word_byte(**byte))
        .count();
    let before = line.len().saturating_sub(len);
    let front = line.get(..before)?.trim_ascii_end();
    if front.ends_with(b"to") || front.ends_with(b"TO") {
        Some(before.saturating_add(1))
    } else {
        None
    }
}

/// The process to which a line sends.
pub fn receiver_in(line: &[u8]) -> Option<&str> {
    Some(word_in(from_column(line, receiver_column(line)?)))
}

/// The bytes of a line from a column on.
fn from_column(line: &[u8], column: usize) -> &[u8] {
    skipped(line, column.saturating_sub(1))
}

/// The bytes after so many.
pub fn skipped(bytes: &[u8], count: usize) -> &[u8] {
    match bytes.get(count..) {
        Some(rest) => rest,
        None => &[],
    }
}

/// The bytes after so many, and after blanks and tabs that follow them.
pub fn past_spaces(bytes: &[u8], count: usize) -> &[u8] {
    let rest = skipped(bytes, count);
    skipped(rest, spaces_len(rest))
}

/// Whether a letter comes first.
pub fn begins_word(bytes: &[u8]) -> bool {
    match bytes.first() {
        Some(byte) => byte.is_ascii_alphabetic(),
        None => false,
    }
}

/// The column in which these last bytes of a line begin.
pub fn column_in(line: &[u8], rest: &[u8]) -> usize {
    line.len().saturating_sub(rest.len()).saturating_add(1)
}

/// The word with which these bytes begin.
pub fn word_in(bytes: &[u8]) -> &str {
    let len = bytes.iter().take_while(|byte| is_word_byte(**byte)).count();
    match str::from_utf8(bytes.get(..len).unwrap_or(&[])) {
        Ok(word) => word,
        Err(_) => "",
    }
}

/// How many blanks and tabs come first.
pub fn spaces_len(bytes: &[u8]) -> usize {
    bytes
        .iter()
        .take_while(|byte| **byte == b' ' || **byte == b'\t')
        .count()
}

/// How many digits come first.
pub fn digits_len(bytes: &[u8]) -> usize {
    bytes
        .iter()
        .take_while(|byte| byte.is_ascii_digit())
        .count()
}
