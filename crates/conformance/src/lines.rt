//! Lines of a file with their numbers.

ghost use Rattle.std.specs.Prelude.{◌≡◌, ◌==◌, ◌<◌, ◌≤◌, IfSome, length, position};
ghost use Rattle.conformance.specs.Line.{first_line};

use crate::escape::Misread;
use crate::fault::{FormatError, FormatFault};

/// A line without its end, and its number, counted from 1.
#[derive(Clone, Copy)]
pub struct Line<'a> {
    pub text: &'a [u8],
    pub number: usize,
}

/// Lines of a file, and the number of the first.
#[derive(Clone, Copy)]
pub struct Lines<'a> {
    pub text: &'a [u8],
    pub number: usize,
}

/// All lines of a file, of which each has its end.
pub fn lines_of(text: &[u8]) -> Result<Lines<'_>, FormatFault> {
    let lines = Lines { text, number: 1 };
    match text.split_last() {
        None | Some((b'\n', _)) => Ok(lines),
        Some(_) => Err(FormatFault::At {
            line: lines.number_at(text.len()),
            error: FormatError::NoLineEnd,
        }),
    }
}

impl<'a> Line<'a> {
    /// Whether it is empty or begins with `#`.
    pub fn is_comment(self) -> bool {
        matches!(self.text.first(), None | Some(b'#'))
    }

    /// The fault of this line.
    pub fn fault(self, error: FormatError) -> FormatFault {
        FormatFault::At {
            line: self.number,
            error,
        }
    }
}

impl<'a> Lines<'a> {
    /// The first line, and those below it.
    pub fn split_first(self) -> Option<(Line<'a>, Lines<'a>)>
        ensures { IfSome result (λ split. length split.1.text.now < length self.entry.text.now) }
    {
        if self.text.is_empty() {
            return None;
        }
        let line = Line {
            text: first_line(self.text),
            number: self.number,
        };
        let below = Lines {
            text: after_first_line(self.text),
            number: self.number.saturating_add(1),
        };
        Some((line, below))
    }

    /// The lines before the first one that begins with a mark, and those from there on.
    pub fn split_at_mark(self, mark: &[u8]) -> (Lines<'a>, Lines<'a>)
        ensures { length result.1.text.now ≤ length self.entry.text.now }
    {
        let mut rest = self;
        while let Some((line, below)) = rest.split_first() {
            if line.text.starts_with(mark) {
                break;
            }
            rest = below;
        }
        let before = Lines {
            text: &self.text[..self.text.len() - rest.text.len()],
            number: self.number,
        };
        (before, rest)
    }
}

impl<'a> Lines<'a> {
    /// These lines without the empty ones at their end.
    pub fn without_empty_end(self) -> Lines<'a> {
        let mut text = self.text;
        while let Some((b'\n', front)) = text.split_last() {
            if !front.is_empty() && !front.ends_with(b"\n") {
                break;
            }
            text = front;
        }
        Lines {
            text,
            number: self.number,
        }
    }

    /// The fault of a text that stands in these lines.
    pub fn fault(self, misread: Misread) -> FormatFault {
        FormatFault::At {
            line: self.number_at(misread.at),
            error: FormatError::Escape(misread.error),
        }
    }

    /// The number of the line in which a byte of these lines stands.
    fn number_at(self, at: usize) -> usize {
        let before = &self.text[..at.min(self.text.len())];
        self.number.saturating_add(line_ends(before))
    }
}

/// How many line ends a text has.
pub fn line_ends(text: &[u8]) -> usize
    ensures { result ≤ length text.now }
{
    text.iter().filter(|byte| **byte == b'\n').count()
}

/// The text before the first line end, or all.
pub fn first_line(text: &[u8]) -> &[u8]
    ensures { result.now ≡ first_line text.now }
{
    match line_end(text) {
        Some(at) => &text[..at],
        None => text,
    }
}

/// The text after the first line end, or nothing.
fn after_first_line(text: &[u8]) -> &[u8]
    ensures { 0 < length text.now → length result.now < length text.now }
{
    match line_end(text) {
        Some(at) => &text[at + 1..],
        None => &text[text.len()..],
    }
}

/// Where the first line end stands.
pub fn line_end(text: &[u8]) -> Option<usize>
    ensures place { result ≡ position (λ b. b == 10) text.now }
    ensures bound { IfSome result (λ at. at < length text.now) }
{
    text.iter().position(|byte| *byte == b'\n')
}
