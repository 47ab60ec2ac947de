//! A difference, as it is shown.

ghost use Rattle.std.specs.Prelude.{◌≡◌, ◌++◌, codes, IfOk, OnOk, map};
ghost use Rattle.std.specs.List.{flat_map};
ghost use Rattle.sdl_command_line.specs.Difference.{text_of};
ghost use Rattle.sdl_command_line.specs.Lines.{texts_of};
ghost use Rattle.sdl_command_line.specs.Shown.{difference_text, next_row, row, shown_byte, shown_line};

use crate::expected::difference::Difference;
use std::alloc::{AllocError, Global};

/// The text of a difference under this heading: the last lines that are the same, the wanted line after a `-`, and the
/// one in its place after a `+`.
pub fn difference_text(
    alloc: Global,
    heading: &str,
    found: &Difference<'_>,
) -> Result<Vec<u8>, AllocError>
    ensures { IfOk result (λ text. text.items ≡ difference_text heading.now found.now) }
{
    let mut text = Vec::from_slice(alloc, heading.as_bytes())?;
    text.extend_from_slice(b"\n")?;
    push_context(&mut text, found.context())?;
    push_next(&mut text, b"- ", found.wanted)?;
    push_next(&mut text, b"+ ", found.told)?;
    Ok(text)
}

/// Adds lines that are the same.
fn push_context(text: &mut Vec<u8>, lines: &[&[u8]]) -> Result<(), AllocError>
    ensures { OnOk result (text.new.items ≡ text.old.items ++ flat_map (row (codes "  ")) (texts_of lines.now)) }
{
    for line in lines {
        push_row(text, b"  ", line)?;
    }
    Ok(())
}

/// Adds the next line of a text after a mark. If the text is over it says that.
fn push_next(text: &mut Vec<u8>, mark: &[u8], line: Option<&[u8]>) -> Result<(), AllocError>
    ensures { OnOk result (text.new.items ≡ text.old.items ++ next_row mark.now (text_of line.entry)) }
{
    match line {
        Some(line) => push_row(text, mark, line),
        None => push_end(text, mark),
    }
}

/// Says after a mark that a text is over.
fn push_end(text: &mut Vec<u8>, mark: &[u8]) -> Result<(), AllocError>
    ensures { OnOk result (text.new.items ≡ text.old.items ++ (mark.now ++ codes "(the end)\n")) }
{
    text.extend_from_slice(mark)?;
    text.extend_from_slice(b"(the end)\n")
}

/// Adds a line after a mark.
fn push_row(text: &mut Vec<u8>, mark: &[u8], line: &[u8]) -> Result<(), AllocError>
    ensures { OnOk result (text.new.items ≡ text.old.items ++ row mark.now line.now) }
{
    text.extend_from_slice(mark)?;
    push_shown(text, line)
}

/// Adds a line as it is shown, with its end. Of a line without an end it says that.
fn push_shown(text: &mut Vec<u8>, line: &[u8]) -> Result<(), AllocError>
    ensures { OnOk result (text.new.items ≡ text.old.items ++ shown_line line.now) }
{
    push_bytes(text, line)?;
    if line.ends_with(b"\n") {
        return Ok(());
    }
    text.extend_from_slice(b" (without a line end)\n")
}

/// Adds bytes as they are shown.
fn push_bytes(text: &mut Vec<u8>, bytes: &[u8]) -> Result<(), AllocError>
    ensures { OnOk result (text.new.items ≡ text.old.items ++ map shown_byte bytes.now) }
{
    for byte in bytes {
        text.push(shown_byte(*byte))?;
    }
    Ok(())
}

/// A byte as it is shown: one that is neither printable ASCII nor a tab or a line end as a question mark.
fn shown_byte(byte: u8) -> u8
    ensures { result ≡ shown_byte byte }
{
    match byte {
        b' '..=b'~' | b'\t' | b'\n' => byte,
        _ => b'?',
    }
}
