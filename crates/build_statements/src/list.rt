//! Lists whose items may be missing.

ghost use Rattle.std.specs.Prelude.{◌≡◌, IfOk, option_map};
ghost use Rattle.build_expressions.specs.Partial.{all_some, and_last};

use std::alloc::{AllocError, Global};

/// The items of a list, where all are there.
pub fn all_there<T: Drop>(alloc: Global, list: Vec<Option<T>>) -> Result<Option<Vec<T>>, AllocError>
    ensures { IfOk result (λ found. option_map (λ items. items.items) found ≡ all_some list.items) }
{
    let mut found = Some(Vec::new(alloc));
    for item in list {
        found = and_last(found, item)?;
    }
    Ok(found)
}

/// The items with one more behind them, where all are there.
pub fn and_last<T: Drop>(
    list: Option<Vec<T>>,
    last: Option<T>,
) -> Result<Option<Vec<T>>, AllocError>
    ensures { IfOk result (λ found. option_map (λ items. items.items) found
        ≡ and_last (option_map (λ items. items.items) list) last) }
{
    match (list, last) {
        (Some(mut list), Some(last)) => {
            list.push(last)?;
            Ok(Some(list))
        }
        _ => Ok(None),
    }
}
