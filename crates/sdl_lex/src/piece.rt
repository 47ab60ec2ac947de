//! What stands at the front of a text: a blank, a comment or a token.

ghost use Rattle.std.specs.Prelude.{◌≡◌, ◌<◌, ◌≤◌, length, pos, slice_index, take, true, false, [], ◌∷◌, IfNone, IfSome, OnSome};
ghost use Rattle.std.specs.Char.{is_ascii_alphabetic, is_ascii_digit};
ghost use Rattle.std.specs.List.{AllPass, prefix_len};
ghost use Rattle.std.specs.Option.{option_copied};
ghost use Rattle.sdl_lex.specs.Byte.{is_word_byte, is_quote};
ghost use Rattle.sdl_lex.specs.Kind.{decimal, is_mark};
ghost use Rattle.sdl_lex.specs.Part.{BeginsComment};
ghost use Rattle.sdl_lex.specs.Piece as spec;
ghost use Rattle.sdl_lex.specs.Piece.{Found, is_other};

use crate::byte::{is_blank, is_mark_byte, is_word_byte};
use crate::token::Kind;

/// How many bytes a word may have.
const MAX_WORD: usize = 255;

/// The largest number that a text may have.
const MAX_NUMBER: u64 = 9_223_372_036_854_775_807;

/// A blank, a comment or a token at the front of a text.
#[derive(Clone, Copy, Debug)]
pub struct Piece {
    /// The token's kind; a blank or a comment has none.
    pub kind: Option<Kind>,
    /// How many bytes it has.
    pub len: usize,
}

/// Why no piece stands at the front of a text.
#[derive(Clone, Copy, Debug)]
pub enum Fault {
    BadByte,
    OpenComment,
    OpenString,
    NumberTooBig,
    NameTooLong,
}

/// The first piece of a text.
pub fn cut(bytes: &[u8]) -> Result<Piece, Fault>
    requires { 0 < length bytes.now }
    ensures { Found result bytes.now }
{
    let first = bytes[0];
    if is_blank(first) {
        Ok(Piece { kind: None, len: 1 })
    } else if first.is_ascii_alphabetic() {
        word(bytes)
    } else if first.is_ascii_digit() {
        number(bytes)
    } else if first == b'\'' {
        text(bytes)
    } else if begins_comment(bytes) {
        comment(bytes)
    } else {
        mark(bytes)
    }
}

fn word(bytes: &[u8]) -> Result<Piece, Fault>
    requires { is_ascii_alphabetic (slice_index bytes.now 0) ≡ true }
    ensures { Found result bytes.now }
{
    let len = word_len(bytes);
    if len > MAX_WORD {
        return Err(Fault::NameTooLong);
    }
    Ok(Piece {
        kind: Some(Kind::Word),
        len,
    })
}

fn word_len(bytes: &[u8]) -> usize
    ensures value { result ≡ prefix_len is_word_byte bytes.now }
    ensures within { result ≤ length bytes.now }
{
    bytes.iter().take_while(|b| is_word_byte(**b)).count()
}

fn number(bytes: &[u8]) -> Result<Piece, Fault>
    requires { is_ascii_digit (slice_index bytes.now 0) ≡ true }
    ensures { Found result bytes.now }
{
    let len = digits_len(bytes);
    let (digits, _) = bytes.split_at(len);
    match decimal(digits) {
        Some(value) => Ok(Piece {
            kind: Some(Kind::Number(value)),
            len,
        }),
        None => Err(Fault::NumberTooBig),
    }
}

fn digits_len(bytes: &[u8]) -> usize
    ensures value { result ≡ prefix_len is_ascii_digit bytes.now }
    ensures within { result ≤ length bytes.now }
    ensures passes { AllPass is_ascii_digit (take result bytes.now) }
{
    bytes.iter().take_while(|b| b.is_ascii_digit()).count()
}

/// The value of decimal digits, unless it is too large.
fn decimal(digits: &[u8]) -> Option<i64>
    requires { AllPass is_ascii_digit digits.now }
    ensures value { IfSome result (λ n. n ≡ pos (decimal digits.now)) }
    ensures small { OnSome result (decimal digits.now ≤ 9223372036854775807) }
    ensures big { IfNone result (9223372036854775807 < decimal digits.now) }
{
    let mut value = 0;
    for b in digits {
        let digit = u64::from(*b - b'0');
        if value > (MAX_NUMBER - digit) / 10 {
            return None;
        }
        value = 10 * value + digit;
    }
    Some(value as i64)
}

fn text(bytes: &[u8]) -> Result<Piece, Fault>
    requires { is_quote (slice_index bytes.now 0) ≡ true }
    ensures { Found result bytes.now }
{
    let (_, body) = bytes.split_at(1);
    match after_text(body) {
        Some(after) => Ok(Piece {
            kind: Some(Kind::Text),
            len: bytes.len() - after.len(),
        }),
        None => Err(Fault::OpenString),
    }
}

/// Gives the bytes after the closing quote of a character string whose opening quote stands before `body`. None if
/// it has no closing quote.
fn after_text(body: &[u8]) -> Option<&[u8]>
    ensures value { option_copied result ≡ spec.after_text body.now }
    ensures within { IfSome result (λ after. length after.now ≤ length body.now) }
{
    let mut rest = body;
    loop {
        match rest {
            [b'\'', b'\'', after @ ..] => rest = after,
            [b'\'', after @ ..] => return Some(after),
            [_, after @ ..] => rest = after,
            [] => return None,
        }
    }
}

fn begins_comment(bytes: &[u8]) -> bool
    ensures begins { result ≡ true → BeginsComment bytes.now }
    ensures other { result ≡ false → ¬ BeginsComment bytes.now }
{
    matches!(bytes, [b'/', b'*', ..])
}

fn comment(bytes: &[u8]) -> Result<Piece, Fault>
    requires { BeginsComment bytes.now }
    ensures { Found result bytes.now }
{
    let (_, body) = bytes.split_at(2);
    match after_comment(body) {
        Some(after) => Ok(Piece {
            kind: None,
            len: bytes.len() - after.len(),
        }),
        None => Err(Fault::OpenComment),
    }
}

/// Gives the bytes after the first `*/`. None if there is none.
fn after_comment(body: &[u8]) -> Option<&[u8]>
    ensures value { option_copied result ≡ spec.after_comment body.now }
    ensures within { IfSome result (λ after. length after.now ≤ length body.now) }
{
    let mut rest = body;
    loop {
        match rest {
            [b'*', b'/', after @ ..] => return Some(after),
            [_, after @ ..] => rest = after,
            [] => return None,
        }
    }
}

fn mark(bytes: &[u8]) -> Result<Piece, Fault>
    requires some { 0 < length bytes.now }
    requires other { is_other (slice_index bytes.now 0) ≡ true }
    requires no_comment { ¬ BeginsComment bytes.now }
    ensures { Found result bytes.now }
{
    let len = mark_len(bytes);
    if len == 0 {
        return Err(Fault::BadByte);
    }
    Ok(Piece {
        kind: Some(Kind::Mark),
        len,
    })
}

/// How many bytes the longest mark at the front has; 0 where none is.
fn mark_len(bytes: &[u8]) -> usize
    ensures { result ≡ spec.mark_len bytes.now }
{
    match bytes {
        [first, second, ..] if is_pair(*first, *second) => 2,
        [first, ..] if is_mark_byte(*first) => 1,
        _ => 0,
    }
}

/// Whether two bytes are one mark.
fn is_pair(first: u8, second: u8) -> bool
    ensures { result ≡ is_mark (first ∷ second ∷ []) }
{
    match first {
        b':' | b'/' | b'<' | b'>' => second == b'=',
        b'=' => second == b'>',
        _ => false,
    }
}
