//! How much more there is than is shown.

ghost use Rattle.std.specs.Prelude.{◌≡◌, ◌++◌, OnOk};
ghost use Rattle.explain_syntax.specs.More.{amount, more_text};

use crate::lines::origin::Origin;
use std::alloc::{AllocError, Global};

/// Adds a line on how many messages more there are, if there are any: just so many, or at least.
pub fn push_more(
    alloc: Global,
    text: &mut Vec<u8>,
    origin: &Origin<'_>,
    more: usize,
    is_all: bool,
) -> Result<(), AllocError>
    ensures { OnOk result (text.new.items ≡ text.old.items ++ more_text origin.now more is_all) }
{
    if more == 0 {
        return Ok(());
    }
    text.extend_from_slice(origin.name.as_bytes())?;
    text.extend_from_slice(if is_all { b": " } else { b": at least " })?;
    push_amount(alloc, text, more)
}

/// Adds a number, and what is so many.
fn push_amount(alloc: Global, text: &mut Vec<u8>, more: usize) -> Result<(), AllocError>
    ensures { OnOk result (text.new.items ≡ text.old.items ++ amount more) }
{
    let digits = format!(in alloc; "{more}")?;
    text.extend_from_slice(digits.as_bytes())?;
    text.extend_from_slice(b" more, not shown\n")
}
