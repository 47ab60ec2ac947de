//! What is suspicious in a specification, for a human.

use crate::notes::Names;
use crate::texts::Texts;
use explain_syntax::Origin;
use sdl_explain::{warnings_of, warnings_text};
use std::alloc::{AllocError, Global};

/// What is suspicious in the specification of an input that is accepted, empty if nothing is.
pub fn suspicions_of(
    alloc: Global,
    texts: &Texts,
    names: &Names<'_>,
) -> Result<Vec<u8>, AllocError> {
    let (specification, _) = texts.parts();
    let found = warnings_of(alloc, specification)?;
    let origin = Origin {
        name: names.text,
        lines_before: 0,
    };
    warnings_text(alloc, specification, &origin, &found)
}
