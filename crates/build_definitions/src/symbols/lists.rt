//! Names of signal lists.

ghost use Rattle.std.specs.Prelude.{◌≡◌, map, IfOk};
ghost use Rattle.build_definitions.specs.Seen.{signal_list_seen};
ghost use Rattle.build_definitions.specs.Definitions.{rows_of};
ghost use Rattle.build_definitions.specs.Entries.{Has, duplicates, entries_of, standings};
ghost use Rattle.build_definitions.specs.Meanings.{list_entries, lists_from};
ghost use Rattle.build_names.specs.Faults.{Notes};

use crate::definitions::Definitions;
use crate::entries::{SignalListEntry, SignalListId};
use crate::number::next_number;
use crate::symbols::declaration::{Declaration, add, declare_all};
use build_names::{Faults, Spaces};
use std::alloc::{AllocError, Global};

/// The names of signal lists, by their scopes.
pub fn declare_lists<'t>(
    alloc: Global,
    definitions: &Definitions<'t>,
    faults: &mut Faults<'t>,
) -> Result<Spaces<'t, SignalListId>, AllocError>
    ensures spaces { IfOk result (λ spaces. Has spaces (list_entries (rows_of definitions.now))) }
    ensures noted { IfOk result (λ spaces. Notes faults.old faults.new
        (duplicates (standings (list_entries (rows_of definitions.now))))) }
{
    let declarations = list_declarations(alloc, &definitions.lists)?;
    declare_all(alloc, &declarations, faults)
}

fn list_declarations<'t>(
    alloc: Global,
    table: &[SignalListEntry<'t>],
) -> Result<Vec<Declaration<'t, SignalListId>>, AllocError>
    ensures { IfOk result (λ declarations. entries_of declarations.items
        ≡ lists_from 0 (map signal_list_seen table.now)) }
{
    let mut declarations = Vec::new(alloc);
    let mut next = 0;
    for entry in table {
        add(
            &mut declarations,
            Declaration {
                scope: entry.scope,
                name: &entry.definition.name,
                what: SignalListId(next),
            },
        )?;
        next = next_number(next)?;
    }
    Ok(declarations)
}
