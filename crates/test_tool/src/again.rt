//! A canonical text spells the tree that it was written from.

use super::specifications::SPECIFICATIONS;
use sdl_parse::parse;
use sdl_print::{canonicalize, print};
use std::alloc::Global;
use std::process::Abort;
use std::test::Fail;

#[test]
fn writes_canonical_text_again(rt: HostRuntime) -> Result<(), Fail> {
    for text in &SPECIFICATIONS {
        let once = written(rt.alloc(), text)?;
        let twice = written_again(rt.alloc(), text)?;
        compare(&rt, text, twice.as_str(), once.as_str());
    }
    Ok(())
}

/// The text that is written of the tree of a text.
fn written(alloc: Global, text: &str) -> Result<String, Fail> {
    let tree = parse(alloc, text.as_bytes())?;
    Ok(print(alloc, &tree)?)
}

/// The canonical text of that text.
fn written_again(alloc: Global, text: &str) -> Result<String, Fail> {
    let written = written(alloc, text)?;
    Ok(canonicalize(alloc, written.as_bytes())?)
}

/// Compares what is told again of a text with what was told of it.
fn compare(rt: &impl Abort, text: &str, again: &str, once: &str) {
    assert!(rt; again == once, "of {text}");
}
