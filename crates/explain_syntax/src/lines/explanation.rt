//! The explanation of a refusal, and its text.

ghost use Rattle.std.specs.Prelude.{◌≡◌, [], ◌∷◌, ◌++◌, IfOk, OnOk};
ghost use Rattle.explain_syntax.specs.Explanation.{explanation_text, other_text, shown_rows};

use crate::lines::advice::Advice;
use crate::lines::excerpt::Excerpt;
use crate::lines::origin::{Origin, push_location};
use crate::lines::rows::{push_line_end, push_rows};
use std::alloc::{AllocError, Global};

/// A place before that of the refusal that has to do with it, and what is said of it.
#[derive(Clone, Copy)]
pub struct Other<'t> {
    pub sentence: &'static str,
    pub excerpt: Excerpt<'t>,
}

/// Why a text is refused, for a human.
#[derive(Drop)]
pub struct Explanation<'t> {
    /// The line of the refusal. None if that has no place, as lack of memory.
    pub shown: Option<Excerpt<'t>>,
    pub advice: Advice,
    pub other: Option<Other<'t>>,
}

impl<'t> Explanation<'t> {
    /// The text of the explanation of a part of the input that comes from there: the place with what is said of it, the
    /// line, and the other place in the same way.
    pub fn text(&self, alloc: Global, origin: &Origin<'_>) -> Result<Vec<u8>, AllocError>
        ensures { IfOk result (λ text. text.items ≡ explanation_text origin.now self.now) }
    {
        let mut text = Vec::new(alloc);
        push_location(alloc, &mut text, origin, &self.shown)?;
        push_line(&mut text, self.advice.text.as_str())?;
        push_shown(alloc, &mut text, origin, &self.shown)?;
        push_other(alloc, &mut text, origin, &self.other)?;
        Ok(text)
    }
}

/// Adds the rows of an excerpt, if there is one.
fn push_shown(
    alloc: Global,
    text: &mut Vec<u8>,
    origin: &Origin<'_>,
    shown: &Option<Excerpt<'_>>,
) -> Result<(), AllocError>
    ensures { OnOk result (text.new.items ≡ text.old.items ++ shown_rows origin.now shown.now) }
{
    match shown {
        Some(excerpt) => push_rows(alloc, text, origin.line_number(excerpt), excerpt),
        None => Ok(()),
    }
}

/// Adds the other place, if there is one, with what is said of it, and its rows.
fn push_other(
    alloc: Global,
    text: &mut Vec<u8>,
    origin: &Origin<'_>,
    other: &Option<Other<'_>>,
) -> Result<(), AllocError>
    ensures { OnOk result (text.new.items ≡ text.old.items ++ other_text origin.now other.now) }
{
    let Some(other) = other else {
        return Ok(());
    };
    let shown = Some(other.excerpt);
    push_location(alloc, text, origin, &shown)?;
    push_line(text, other.sentence)?;
    push_shown(alloc, text, origin, &shown)
}

/// Adds a line.
fn push_line(text: &mut Vec<u8>, line: &str) -> Result<(), AllocError>
    ensures { OnOk result (text.new.items ≡ text.old.items ++ (line.now ++ 10 ∷ [])) }
{
    text.extend_from_slice(line.as_bytes())?;
    push_line_end(text)
}
