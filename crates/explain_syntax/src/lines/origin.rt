//! Where a part of the input comes from.

ghost use Rattle.std.specs.Prelude.{◌≡◌, ◌++◌, OnOk};
ghost use Rattle.explain_syntax.specs.Origin.{line_number, location, numbered, place_text};

use crate::lines::excerpt::Excerpt;
use std::alloc::{AllocError, Global};

/// The file in which a specification or a script is, for messages from which editors jump to a place.
#[derive(Clone, Copy)]
pub struct Origin<'n> {
    /// The name of the file.
    pub name: &'n str,
    /// How many lines of the file come before the first one of the part.
    pub lines_before: usize,
}

impl Origin<'_> {
    /// The number that the line of an excerpt has in the file.
    pub fn line_number(&self, excerpt: &Excerpt<'_>) -> usize
        ensures { result ≡ line_number self.now excerpt.now }
    {
        excerpt.place.line.saturating_add(self.lines_before)
    }
}

/// Adds the name of the file with the line and the column in it, each after a colon; then a colon and a blank.
pub fn push_location(
    alloc: Global,
    text: &mut Vec<u8>,
    origin: &Origin<'_>,
    shown: &Option<Excerpt<'_>>,
) -> Result<(), AllocError>
    ensures { OnOk result (text.new.items ≡ text.old.items ++ location origin.now shown.now) }
{
    text.extend_from_slice(origin.name.as_bytes())?;
    push_place(alloc, text, origin, shown)?;
    text.extend_from_slice(b": ")
}

/// Adds the line and the column, if there are any.
fn push_place(
    alloc: Global,
    text: &mut Vec<u8>,
    origin: &Origin<'_>,
    shown: &Option<Excerpt<'_>>,
) -> Result<(), AllocError>
    ensures { OnOk result (text.new.items ≡ text.old.items ++ place_text origin.now shown.now) }
{
    match shown {
        Some(excerpt) => {
            push_number(alloc, text, origin.line_number(excerpt))?;
            push_number(alloc, text, excerpt.place.column)
        }
        None => Ok(()),
    }
}

/// Adds a colon and a number.
fn push_number(alloc: Global, text: &mut Vec<u8>, number: usize) -> Result<(), AllocError>
    ensures { OnOk result (text.new.items ≡ text.old.items ++ numbered number) }
{
    let digits = format!(in alloc; ":{number}")?;
    text.extend_from_slice(digits.as_bytes())
}
