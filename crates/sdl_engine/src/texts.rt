//! The texts of an input, and their two parts.

ghost use Rattle.sdl_engine.specs.Parts.{HasParts, IsParted};

use crate::line::{first_line, is_bare_script_line, is_script_line};

/// What is held of an input.
#[derive(Drop)]
pub struct Texts {
    /// The specification, and what follows it.
    pub text: Vec<u8>,
    /// A script of its own, which takes the place of the one in the text.
    pub script: Option<Vec<u8>>,
}

impl Texts {
    /// The specification and the script.
    pub fn parts(&self) -> (&[u8], &[u8])
        ensures { HasParts self.now result.0.now result.1.now }
    {
        let (specification, after) = parts(self.text.as_slice());
        match &self.script {
            Some(own) => (specification, own.as_slice()),
            None => (specification, after),
        }
    }
}

/// What stands before the first line that is exactly `%script`, and what follows that line. Without such a line nothing
/// follows.
fn parts(text: &[u8]) -> (&[u8], &[u8])
    ensures { IsParted text.now result.0.now result.1.now }
{
    let mut rest = text;
    while let Some((line, after)) = first_line(rest) {
        if is_script_line(line) {
            return (&text[..text.len() - rest.len()], after);
        }
        rest = after;
    }
    let (before, nothing) = text.split_at(text.len());
    if is_bare_script_line(rest) {
        return (&text[..text.len() - rest.len()], nothing);
    }
    (before, nothing)
}
