//! Names of labels.

ghost use Rattle.std.specs.Prelude.{◌≡◌, map, IfOk};
ghost use Rattle.build_definitions.specs.Seen.{label_seen};
ghost use Rattle.build_definitions.specs.Definitions.{rows_of};
ghost use Rattle.build_definitions.specs.Entries.{Has, duplicates, entries_of, standings};
ghost use Rattle.build_definitions.specs.Meanings.{label_entries, label_entry};
ghost use Rattle.build_names.specs.Faults.{Notes};

use crate::definitions::Definitions;
use crate::entries::LabelEntry;
use crate::symbols::declaration::{Declaration, add, declare_all};
use build_names::{Faults, ScopeId, Spaces};
use sdl_system::LabelId;
use std::alloc::{AllocError, Global};

/// The names of labels, by their processes.
pub fn declare_labels<'t>(
    alloc: Global,
    definitions: &Definitions<'t>,
    faults: &mut Faults<'t>,
) -> Result<Spaces<'t, LabelId>, AllocError>
    ensures spaces { IfOk result (λ spaces. Has spaces (label_entries (rows_of definitions.now))) }
    ensures noted { IfOk result (λ spaces. Notes faults.old faults.new
        (duplicates (standings (label_entries (rows_of definitions.now))))) }
{
    let declarations = label_declarations(alloc, &definitions.labels)?;
    declare_all(alloc, &declarations, faults)
}

fn label_declarations<'t>(
    alloc: Global,
    table: &[LabelEntry<'t>],
) -> Result<Vec<Declaration<'t, LabelId>>, AllocError>
    ensures { IfOk result (λ declarations. entries_of declarations.items ≡ map label_entry (map label_seen table.now)) }
{
    let mut declarations = Vec::new(alloc);
    for entry in table {
        add(
            &mut declarations,
            Declaration {
                scope: ScopeId::Process(entry.process),
                name: entry.name,
                what: entry.number,
            },
        )?;
    }
    Ok(declarations)
}
