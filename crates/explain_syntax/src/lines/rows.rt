//! The two rows that show an excerpt.

ghost use Rattle.std.specs.Prelude.{◌≡◌, ◌-◌, [], ◌∷◌, ◌++◌, drop, length, map, replicate, take, IfOk, OnOk};
ghost use Rattle.explain_syntax.specs.Rows.{blank_for, caret_row, cut_of, front, line_row, rows, shown_byte};

use crate::lines::byte::{blank_for, shown_byte};
use crate::lines::excerpt::Excerpt;
use std::alloc::{AllocError, Global};

/// So many bytes are shown of what stands before a place, and so many from it on.
const MOST_SHOWN: usize = 60;

/// Adds the rows of an excerpt: its line with this number, cut to a window around the place if it is long, and under it
/// carets under the marked bytes.
pub fn push_rows(
    alloc: Global,
    text: &mut Vec<u8>,
    number: usize,
    excerpt: &Excerpt<'_>,
) -> Result<(), AllocError>
    ensures { OnOk result (text.new.items ≡ text.old.items ++ rows number excerpt.now) }
{
    let front = front_of(alloc, number, excerpt)?;
    push_line(text, &front, excerpt)?;
    push_marks(text, &front, excerpt)
}

/// Adds the row of the line, which begins like this.
fn push_line(text: &mut Vec<u8>, front: &[u8], excerpt: &Excerpt<'_>) -> Result<(), AllocError>
    ensures { OnOk result (text.new.items ≡ text.old.items ++ line_row front.now excerpt.now) }
{
    text.extend_from_slice(front)?;
    push_shown(text, first_shown(excerpt.behind))?;
    push_cut(text, excerpt.behind)?;
    push_line_end(text)
}

/// Adds the row of the carets under one that begins like this.
fn push_marks(text: &mut Vec<u8>, front: &[u8], excerpt: &Excerpt<'_>) -> Result<(), AllocError>
    ensures { OnOk result (text.new.items ≡ text.old.items ++ caret_row front.now excerpt.now) }
{
    let shown = first_shown(excerpt.behind);
    push_blanks(text, front)?;
    push_carets(text, excerpt.width.min(shown.len().max(1)))?;
    push_line_end(text)
}

/// Ends a line.
pub fn push_line_end(text: &mut Vec<u8>) -> Result<(), AllocError>
    ensures { OnOk result (text.new.items ≡ text.old.items ++ 10 ∷ []) }
{
    text.push(b'\n')?;
    Ok(())
}

/// The first row up to the place: the number of the line, and what is shown before the place.
fn front_of(alloc: Global, number: usize, excerpt: &Excerpt<'_>) -> Result<Vec<u8>, AllocError>
    ensures { IfOk result (λ text. text.items ≡ front number excerpt.now) }
{
    let margin = format!(in alloc; "{number} | ")?;
    let mut text = Vec::from_slice(alloc, margin.as_bytes())?;
    push_cut(&mut text, excerpt.before)?;
    push_shown(&mut text, last_shown(excerpt.before))?;
    Ok(text)
}

/// Gives the bytes before a place that are shown: the last ones.
fn last_shown(bytes: &[u8]) -> &[u8]
    ensures { result.now ≡ drop (length bytes.now - 60) bytes.now }
{
    let (_, shown) = bytes.split_at(bytes.len().saturating_sub(MOST_SHOWN));
    shown
}

/// Gives the bytes from a place on that are shown: the first ones.
fn first_shown(bytes: &[u8]) -> &[u8]
    ensures { result.now ≡ take 60 bytes.now }
{
    if bytes.len() > MOST_SHOWN {
        &bytes[..MOST_SHOWN]
    } else {
        bytes
    }
}

/// Adds dots if bytes are left out.
fn push_cut(text: &mut Vec<u8>, bytes: &[u8]) -> Result<(), AllocError>
    ensures { OnOk result (text.new.items ≡ text.old.items ++ cut_of bytes.now) }
{
    if bytes.len() > MOST_SHOWN {
        text.extend_from_slice(b"...")
    } else {
        Ok(())
    }
}

/// Adds bytes as they are shown.
fn push_shown(text: &mut Vec<u8>, bytes: &[u8]) -> Result<(), AllocError>
    ensures { OnOk result (text.new.items ≡ text.old.items ++ map shown_byte bytes.now) }
{
    for byte in bytes {
        text.push(shown_byte(*byte))?;
    }
    Ok(())
}

/// Adds what comes under bytes that aren't marked.
fn push_blanks(text: &mut Vec<u8>, bytes: &[u8]) -> Result<(), AllocError>
    ensures { OnOk result (text.new.items ≡ text.old.items ++ map blank_for bytes.now) }
{
    for byte in bytes {
        text.push(blank_for(*byte))?;
    }
    Ok(())
}

/// Adds so many carets.
fn push_carets(text: &mut Vec<u8>, count: usize) -> Result<(), AllocError>
    ensures { OnOk result (text.new.items ≡ text.old.items ++ replicate count 94) }
{
    for _caret in 0..count {
        text.push(b'^')?;
    }
    Ok(())
}
