//! Names of states.

ghost use Rattle.std.specs.Prelude.{◌≡◌, map, IfOk};
ghost use Rattle.build_definitions.specs.Seen.{state_seen};
ghost use Rattle.build_definitions.specs.Definitions.{rows_of};
ghost use Rattle.build_definitions.specs.Entries.{Has, entries_of};
ghost use Rattle.build_definitions.specs.Meanings.{state_entries, state_entry};

use crate::definitions::Definitions;
use crate::entries::StateEntry;
use crate::symbols::declaration::{Declaration, add, declare_all};
use build_names::{Faults, ScopeId, Spaces};
use sdl_system::StateId;
use std::alloc::{AllocError, Global};

/// The names of states, by their processes. The table has each once.
pub fn declare_states<'t>(
    alloc: Global,
    definitions: &Definitions<'t>,
) -> Result<Spaces<'t, StateId>, AllocError>
    ensures { IfOk result (λ spaces. Has spaces (state_entries (rows_of definitions.now))) }
{
    let declarations = state_declarations(alloc, &definitions.states)?;
    declare_all(alloc, &declarations, &mut Faults::new())
}

fn state_declarations<'t>(
    alloc: Global,
    table: &[StateEntry<'t>],
) -> Result<Vec<Declaration<'t, StateId>>, AllocError>
    ensures { IfOk result (λ declarations. entries_of declarations.items ≡ map state_entry (map state_seen table.now)) }
{
    let mut declarations = Vec::new(alloc);
    for entry in table {
        add(
            &mut declarations,
            Declaration {
                scope: ScopeId::Process(entry.process),
                name: entry.name,
                what: entry.number,
            },
        )?;
    }
    Ok(declarations)
}
