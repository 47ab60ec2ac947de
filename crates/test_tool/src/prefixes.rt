//! A specification that is cut off anywhere is refused by one line.

use super::specifications::{BLOCKS, CHAIN};
use sdl_parse::{ParseError, parse};
use std::alloc::{AllocError, Global};
use std::process::Abort;
use std::test::Fail;

#[test]
fn refuses_each_proper_prefix(rt: HostRuntime) -> Result<(), Fail> {
    for text in [CHAIN, BLOCKS] {
        let bytes = text.as_bytes();
        assert!(rt; parse(rt.alloc(), bytes).is_ok());
        for length in 0..bytes.len() {
            match parse(rt.alloc(), &bytes[..length]) {
                Ok(_) => panic!(rt; "{length} bytes are read"),
                Err(error) => is_one_line(&rt, rt.alloc(), &error)?,
            }
        }
    }
    Ok(())
}

/// Sees that a refusal is told by one line, of tokens or of the tree.
fn is_one_line(rt: &impl Abort, alloc: Global, error: &ParseError) -> Result<(), AllocError> {
    let line = format!(in alloc; "{error}")?;
    let known = line.starts_with("lex ") || line.starts_with("parse ");
    assert!(rt; known, "{line}");
    assert!(rt; !line.contains('\n'), "{line}");
    Ok(())
}
