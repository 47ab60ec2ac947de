//! The conditions of a process.

ghost use Rattle.std.specs.Prelude.{IfOk};
ghost use Rattle.build_process.specs.Conditions.{AreWhole};

use sdl_system::Expression;
use std::alloc::{AllocError, Global};

/// The conditions, where no rule is broken in any.
pub(crate) fn whole(
    alloc: Global,
    conditions: Vec<Option<Expression>>,
) -> Result<Option<Vec<Expression>>, AllocError>
    ensures { IfOk result (AreWhole conditions.items) }
{
    let mut list = Vec::new(alloc);
    for condition in conditions {
        let Some(condition) = condition else {
            return Ok(None);
        };
        list.push(condition)?;
    }
    Ok(Some(list))
}
