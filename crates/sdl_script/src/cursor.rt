//! A place in a line of a script.

ghost use Rattle.std.specs.Prelude.{◌≡◌, ◌-◌, ◌^◌, ◌≤◌, length, min, IsSomeAnd};
ghost use Rattle.std.specs.Str.{IsAscii};
ghost use Rattle.sdl_script.specs.Part as part;
ghost use Rattle.sdl_lex.specs.Kind.{decimal};

use crate::byte::{digits_len, spaces_len, word_len};
use std::marker::Model;
use std::str;

/// The rest of a line that is still to be read. It never begins with a space: a blank or a tab.
#[derive(Drop)]
pub struct Cursor<'a> {
    rest: &'a [u8],
}

impl<'a> Model for Cursor<'a> {
    ghost use Rattle.std.specs.Prelude.{ℕ, List};

    ghost Value = { List ℕ };

    ghost view = { λ cursor. cursor.rest.now };
}

impl<'a> Cursor<'a> {
    ghost use Rattle.std.specs.Prelude.{◌≡◌, ◌<◌, ◌≤◌, ◌↔◌, Some, None, [], drop, take, length, if◌then◌else◌, IfNone, IsTrue, MatchOption};
    ghost use Rattle.std.specs.Bool.{OnTrue, OnFalse};
    ghost use Rattle.sdl_script.specs.Part.{past_spaces};
    ghost use Rattle.sdl_script.specs.Reading.{mark, number, word};

    pub fn new(line: &'a [u8]) -> Self
        ensures { result ≡ past_spaces line.now }
    {
        Cursor {
            rest: past_spaces(line),
        }
    }

    pub fn is_at_end(&self) -> bool
        ensures { IsTrue result ↔ (self.now ≡ []) }
    {
        self.rest.is_empty()
    }

    /// Steps over this byte and the spaces behind it, where it comes next.
    pub fn eat(&mut self, byte: u8) -> bool
        ensures read { (if result then Some self.new else None) ≡ mark byte self.old }
        ensures kept { OnFalse result (self.new ≡ self.old) }
        ensures eaten { OnTrue result (length self.new < length self.old) }
    {
        match self.rest.split_first() {
            Some((first, behind)) if *first == byte => {
                self.rest = past_spaces(behind);
                true
            }
            _ => false,
        }
    }

    /// The digits that come next, as a number. What is past 64 bits becomes `u64::MAX`, which no place of a script
    /// admits.
    pub fn number(&mut self) -> Option<u64>
        ensures read { MatchOption result (number self.old ≡ None) (λ n. number self.old ≡ Some (n, self.new)) }
        ensures kept { IfNone result (self.new ≡ self.old) }
        ensures shorter { length self.new ≤ length self.old }
    {
        let len = digits_len(self.rest);
        if len == 0 {
            return None;
        }
        Some(saturated(self.pass(len)))
    }

    /// The word that comes next: a letter, and behind it letters, digits and `_`.
    #[tactic(auto, using(crate::proofs::RunLemmas::word_ascii))]
    pub fn word(&mut self) -> Option<&'a str>
        ensures read { MatchOption result (word self.old ≡ None) (λ w. word self.old ≡ Some (w.now, self.new)) }
        ensures shorter { length self.new ≤ length self.old }
    {
        let first = self.rest.first()?;
        if !first.is_ascii_alphabetic() {
            return None;
        }
        let len = word_len(self.rest);
        ascii_text(self.pass(len))
    }

    /// Steps over so many bytes and the spaces behind them.
    fn pass(&mut self, len: usize) -> &'a [u8]
        requires { len ≤ length self.old }
        ensures run { result.now ≡ take len self.old }
        ensures rest { self.new ≡ past_spaces (drop len self.old) }
        ensures shorter { length self.new ≤ length self.old }
    {
        let (run, behind) = self.rest.split_at(len);
        self.rest = past_spaces(behind);
        run
    }
}

fn past_spaces(bytes: &[u8]) -> &[u8]
    ensures value { result.now ≡ part.past_spaces bytes.now }
    ensures shorter { length result.now ≤ length bytes.now }
{
    let (_, rest) = bytes.split_at(spaces_len(bytes));
    rest
}

#[tactic(auto, using(crate::proofs::RunLemmas::ascii_is_text))]
fn ascii_text(bytes: &[u8]) -> Option<&str>
    requires { IsAscii bytes.now }
    ensures { IsSomeAnd result (λ text. text.now ≡ bytes.now) }
{
    match str::from_utf8(bytes) {
        Ok(text) => Some(text),
        Err(_) => None,
    }
}

/// The value of some digits, at most `u64::MAX`.
fn saturated(digits: &[u8]) -> u64
    ensures { result ≡ min (decimal digits.now) (2 ^ 64 - 1) }
{
    let mut value = 0u64;
    for digit in digits {
        value = value
            .saturating_mul(10)
            .saturating_add(u64::from(digit.saturating_sub(b'0')));
    }
    value
}
