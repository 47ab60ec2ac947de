//! The lines of a text.

ghost use Rattle.std.specs.Prelude.{◌≡◌, ◌==◌, ◌<◌, ◌∷◌, IfOk, IfSome, length, position};
ghost use Rattle.std.specs.List.{flat_map};
ghost use Rattle.sdl_command_line.specs.Lines.{lines, texts_of};

use std::alloc::{AllocError, Global};

/// The lines of a text, each with its end. The last one may lack it.
pub fn lines_of<'t>(alloc: Global, text: &'t [u8]) -> Result<Vec<&'t [u8]>, AllocError>
    ensures lines { IfOk result (λ all. texts_of all.items ≡ lines text.now) }
    ensures whole { IfOk result (λ all. flat_map (λ line. line) (texts_of all.items) ≡ text.now) }
{
    let mut lines = Vec::new(alloc);
    let mut rest = text;
    'parts: while !rest.is_empty() {
        let (line, after) = first_line(rest);
        lines.push(line)?;
        rest = after;
    }
    Ok(lines)
}

/// The first line with its end, if it has one, and what follows it.
fn first_line(text: &[u8]) -> (&[u8], &[u8])
    requires { 0 < length text.now }
    ensures lines { lines text.now ≡ result.0.now ∷ lines result.1.now }
    ensures shorter { length result.1.now < length text.now }
{
    match line_end(text) {
        Some(at) => text.split_at(at + 1),
        None => text.split_at(text.len()),
    }
}

/// Where the first line end is.
fn line_end(text: &[u8]) -> Option<usize>
    ensures place { result ≡ position (λ b. b == 10) text.now }
    ensures bound { IfSome result (λ at. at < length text.now) }
{
    text.iter().position(|byte| *byte == b'\n')
}
