//! How an entry comes into a table.

ghost use Rattle.std.specs.Prelude.{◌≡◌, ◌++◌, ◌∷◌, [], OnOk};

use std::alloc::AllocError;

/// Adds the entry at the end of the table.
pub fn enter<T: Drop>(table: &mut Vec<T>, entry: T) -> Result<(), AllocError>
    ensures { OnOk result (table.new.items ≡ table.old.items ++ entry ∷ []) }
{
    table.push(entry)?;
    Ok(())
}
