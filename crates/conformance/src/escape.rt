//! What the texts of a case file stand for.

ghost use Rattle.std.specs.Prelude.{◌≡◌, ◌<◌, ◌≤◌, ◌++◌, OnOk, IfOk, length};
ghost use Rattle.conformance.specs.Escape.{IsPlain, IsPlainByte, PutsByte};

use std::alloc::AllocError;
use std::io::Write;
use std::str;
use thiserror::Error;

/// A mistake in a text with escapes.
#[derive(Debug, Drop, Error)]
pub enum EscapeError {
    #[error("unknown escape")]
    Unknown,
    #[error("`\\x` wants two hexadecimal digits")]
    Hexadecimal,
    #[error("a repeat is `\\{{COUNT TEXT}}`")]
    Repeat,
    #[error("a repeat in a repeat")]
    Nested,
    #[error("`\\?` is a side of a table's row, and there is none")]
    NoSide,
    #[error("`\\#` is the number of a turn, and nothing is repeated")]
    NoTurn,
    #[error(transparent)]
    Memory(#[from(alloc)] AllocError),
}

/// An error, and how many bytes of the text stand before it.
#[derive(Drop)]
pub struct Misread {
    pub at: usize,
    pub error: EscapeError,
}

/// The smallest part of a text.
#[derive(Clone, Copy)]
enum Piece<'a> {
    Byte(u8),
    /// The end of a line that is taken away.
    Joined,
    /// A side of a row.
    Side,
    /// The number of the turn of a repeat.
    Turn,
    Repeat { count: u32, text: &'a [u8] },
}

/// Appends what a text stands for. In the text of a table's case the side is one of its row.
pub fn expand(text: &[u8], side: Option<&[u8]>, out: &mut Vec<u8>) -> Result<(), Misread>
    ensures plain { IsPlain text.now → OnOk result (out.new.items ≡ out.old.items ++ text.now) }
{
    let mut rest = text;
    while !rest.is_empty() {
        match expand_first(rest, side, out) {
            Ok(after) => rest = after,
            Err(error) => {
                let at = text.len() - rest.len();
                return Err(Misread { at, error });
            }
        }
    }
    Ok(())
}

/// Appends what the first piece of a text stands for, and gives what follows it.
fn expand_first<'a>(
    text: &'a [u8],
    side: Option<&[u8]>,
    out: &mut Vec<u8>,
) -> Result<&'a [u8], EscapeError>
    requires { 0 < length text.now }
    ensures shorter { IfOk result (λ rest. length rest.now < length text.now) }
    ensures plain { IsPlain text.now → IfOk result
        (λ rest. IsPlain rest.now × (out.new.items ++ rest.now ≡ out.old.items ++ text.now)) }
{
    let (piece, rest) = first_piece(text)?;
    expand_piece(piece, side, out)?;
    Ok(rest)
}

fn expand_piece(piece: Piece<'_>, side: Option<&[u8]>, out: &mut Vec<u8>) -> Result<(), EscapeError>
    ensures { OnOk result (PutsByte piece.entry out.old.items out.new.items) }
{
    match piece {
        Piece::Repeat { count, text } => repeat(count, text, side, out),
        piece => put(piece, side, None, out),
    }
}

/// Appends what a text stands for in each turn.
fn repeat(
    count: u32,
    text: &[u8],
    side: Option<&[u8]>,
    out: &mut Vec<u8>,
) -> Result<(), EscapeError> {
    for turn in 0..count {
        expand_turn(text, side, turn, out)?;
    }
    Ok(())
}

fn expand_turn(
    text: &[u8],
    side: Option<&[u8]>,
    turn: u32,
    out: &mut Vec<u8>,
) -> Result<(), EscapeError> {
    let mut rest = text;
    while !rest.is_empty() {
        let (piece, after) = first_piece(rest)?;
        put(piece, side, Some(turn), out)?;
        rest = after;
    }
    Ok(())
}

/// Appends what a piece that repeats nothing stands for.
fn put(
    piece: Piece<'_>,
    side: Option<&[u8]>,
    turn: Option<u32>,
    out: &mut Vec<u8>,
) -> Result<(), EscapeError>
    ensures byte { OnOk result (PutsByte piece.entry out.old.items out.new.items) }
{
    match piece {
        Piece::Byte(byte) => out.push(byte)?,
        Piece::Joined => {}
        Piece::Side => out.extend_from_slice(side.ok_or(EscapeError::NoSide)?)?,
        Piece::Turn => {
            let turn = turn.ok_or(EscapeError::NoTurn)?;
            write!(out, "{turn}").map_err(|_| EscapeError::Memory(AllocError))?;
        }
        Piece::Repeat { .. } => return Err(EscapeError::Nested),
    }
    Ok(())
}

/// The first piece of a text, and what follows it.
fn first_piece(text: &[u8]) -> Result<(Piece<'_>, &[u8]), EscapeError>
    requires { 0 < length text.now }
    ensures shorter { IfOk result (λ read. length read.1.now < length text.now) }
    ensures plain { IsPlain text.now → IfOk result (λ read. IsPlainByte text.now read.0 read.1.now) }
{
    match text.split_first() {
        Some((b'\\', escape)) => read_escape(escape),
        Some((byte, rest)) => Ok((Piece::Byte(*byte), rest)),
        None => Err(EscapeError::Unknown),
    }
}

/// The escape whose backslash stands before a text, and what follows it.
fn read_escape(text: &[u8]) -> Result<(Piece<'_>, &[u8]), EscapeError>
    ensures { IfOk result (λ read. length read.1.now ≤ length text.now) }
{
    let Some((kind, rest)) = text.split_first() else {
        return Err(EscapeError::Unknown);
    };
    match kind {
        b'\\' => Ok((Piece::Byte(b'\\'), rest)),
        b'n' => Ok((Piece::Byte(b'\n'), rest)),
        b'r' => Ok((Piece::Byte(b'\r'), rest)),
        b't' => Ok((Piece::Byte(b'\t'), rest)),
        b'x' => read_byte(rest),
        b'\n' => Ok((Piece::Joined, rest)),
        b'?' => Ok((Piece::Side, rest)),
        b'#' => Ok((Piece::Turn, rest)),
        b'{' => read_repeat(rest),
        _ => Err(EscapeError::Unknown),
    }
}

/// The byte of two hexadecimal digits.
fn read_byte(text: &[u8]) -> Result<(Piece<'_>, &[u8]), EscapeError>
    ensures { IfOk result (λ read. length read.1.now ≤ length text.now) }
{
    let Some((digits, rest)) = text.split_at_checked(2) else {
        return Err(EscapeError::Hexadecimal);
    };
    let high = digit(digits[0])?;
    let low = digit(digits[1])?;
    Ok((Piece::Byte(high * 16 + low), rest))
}

fn digit(byte: u8) -> Result<u8, EscapeError>
    ensures { IfOk result (λ digit. digit < 16) }
{
    match byte {
        b'0'..=b'9' => Ok(byte - b'0'),
        b'a'..=b'f' => Ok(byte - b'a' + 10),
        b'A'..=b'F' => Ok(byte - b'A' + 10),
        _ => Err(EscapeError::Hexadecimal),
    }
}

/// The repeat of which a count, a blank, a text and a closing brace are left.
fn read_repeat(text: &[u8]) -> Result<(Piece<'_>, &[u8]), EscapeError>
    ensures { IfOk result (λ read. length read.1.now ≤ length text.now) }
{
    let Some(end) = text.iter().position(|byte| *byte == b'}') else {
        return Err(EscapeError::Repeat);
    };
    let inside = &text[..end];
    let Some(blank) = inside.iter().position(|byte| *byte == b' ') else {
        return Err(EscapeError::Repeat);
    };
    let digits = str::from_utf8(&inside[..blank]).map_err(|_| EscapeError::Repeat)?;
    let count = digits.parse().map_err(|_| EscapeError::Repeat)?;
    let piece = Piece::Repeat {
        count,
        text: &inside[blank + 1..],
    };
    Ok((piece, &text[end + 1..]))
}
