//! Declarations of one name space.

ghost use Rattle.std.specs.Prelude.{◌≡◌, ◌++◌, ◌∷◌, [], IfOk, OnOk};
ghost use Rattle.build_definitions.specs.Entries.{Has, duplicates, entries_of, standings};
ghost use Rattle.build_names.specs.Faults.{Notes};

use build_names::{Faults, ScopeId, Spaces};
use sdl_tree::Name;
use std::alloc::{AllocError, Global};

/// A name that a scope declares, with what it stands for.
#[derive(Clone, Copy)]
pub struct Declaration<'t, T: Copy> {
    pub scope: ScopeId,
    pub name: &'t Name,
    pub what: T,
}

/// Adds the declaration at the end of the list.
pub fn add<T: Drop>(list: &mut Vec<T>, declaration: T) -> Result<(), AllocError>
    ensures { OnOk result (list.new.items ≡ list.old.items ++ declaration ∷ []) }
{
    list.push(declaration)?;
    Ok(())
}

/// The names of these declarations, by their scopes. One that its scope has already is noted as a Duplicate.
pub fn declare_all<'t, T: Copy>(
    alloc: Global,
    declarations: &[Declaration<'t, T>],
    faults: &mut Faults<'t>,
) -> Result<Spaces<'t, T>, AllocError>
    ensures spaces { IfOk result (λ spaces. Has spaces (entries_of declarations.now)) }
    ensures noted { IfOk result (λ spaces. Notes faults.old faults.new
        (duplicates (standings (entries_of declarations.now)))) }
{
    let mut spaces = Spaces::new(alloc);
    for declaration in declarations {
        spaces.declare(
            alloc,
            declaration.scope,
            declaration.name,
            declaration.what,
            faults,
        )?;
    }
    Ok(spaces)
}
