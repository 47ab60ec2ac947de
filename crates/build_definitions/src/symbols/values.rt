//! Names of variables, formal parameters and synonyms.

ghost use Rattle.std.specs.Prelude.{◌≡◌, map, IfOk};
ghost use Rattle.build_definitions.specs.Seen.{value_seen};
ghost use Rattle.build_definitions.specs.Definitions.{rows_of};
ghost use Rattle.build_definitions.specs.Entries.{Has, duplicates, entries_of, standings};
ghost use Rattle.build_definitions.specs.Meanings.{value_entries, value_entry};
ghost use Rattle.build_names.specs.Faults.{Notes};

use crate::definitions::Definitions;
use crate::entries::ValueName;
use crate::symbols::declaration::{Declaration, add, declare_all};
use build_expressions::ValueEntry;
use build_names::{Faults, Spaces};
use std::alloc::{AllocError, Global};

/// The names of variables, formal parameters and synonyms, by their scopes.
pub fn declare_values<'t>(
    alloc: Global,
    definitions: &Definitions<'t>,
    faults: &mut Faults<'t>,
) -> Result<Spaces<'t, ValueEntry>, AllocError>
    ensures spaces { IfOk result (λ spaces. Has spaces (value_entries (rows_of definitions.now))) }
    ensures noted { IfOk result (λ spaces. Notes faults.old faults.new
        (duplicates (standings (value_entries (rows_of definitions.now))))) }
{
    let declarations = value_declarations(alloc, &definitions.values)?;
    declare_all(alloc, &declarations, faults)
}

fn value_declarations<'t>(
    alloc: Global,
    table: &[ValueName<'t>],
) -> Result<Vec<Declaration<'t, ValueEntry>>, AllocError>
    ensures { IfOk result (λ declarations. entries_of declarations.items ≡ map value_entry (map value_seen table.now)) }
{
    let mut declarations = Vec::new(alloc);
    for entry in table {
        add(
            &mut declarations,
            Declaration {
                scope: entry.scope,
                name: entry.name,
                what: entry.entry,
            },
        )?;
    }
    Ok(declarations)
}
