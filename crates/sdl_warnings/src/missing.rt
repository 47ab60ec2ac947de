//! Names that are missing in a set.

ghost use Rattle.std.specs.Prelude.{◌≡◌, ◌++◌, OnOk, map};
ghost use Rattle.sdl_warnings.specs.Heads.{head_value};
ghost use Rattle.sdl_warnings.specs.Missing.{missing};
ghost use Rattle.sdl_warnings.specs.Sets.{has};

use crate::heads::Head;
use crate::name_set::NameSet;
use crate::suspicion::{Suspicion, Warning};
use std::alloc::AllocError;

/// Adds a warning of this kind for each of these names that isn't in a set.
pub fn add_missing(
    found: &mut Vec<Warning>,
    suspicion: Suspicion,
    names: &[Head<'_>],
    set: &NameSet<'_>,
) -> Result<(), AllocError>
    ensures { OnOk result (found.new.items
        ≡ found.old.items ++ missing suspicion (has set.now) (map head_value names.now)) }
{
    for head in names {
        if !set.has(head.name) {
            found.push(Warning {
                suspicion,
                place: head.place,
            })?;
        }
    }
    Ok(())
}
