//! Names of channels.

ghost use Rattle.std.specs.Prelude.{◌≡◌, map, IfOk};
ghost use Rattle.build_definitions.specs.Seen.{channel_seen};
ghost use Rattle.build_definitions.specs.Definitions.{rows_of};
ghost use Rattle.build_definitions.specs.Entries.{Has, duplicates, entries_of, standings};
ghost use Rattle.build_definitions.specs.Meanings.{channel_entries, channels_from};
ghost use Rattle.build_names.specs.Faults.{Notes};

use crate::definitions::Definitions;
use crate::entries::{ChannelEntry, ChannelId};
use crate::number::next_number;
use crate::symbols::declaration::{Declaration, add, declare_all};
use build_names::{Faults, Spaces};
use std::alloc::{AllocError, Global};

/// The names of channels, by their scopes.
pub fn declare_channels<'t>(
    alloc: Global,
    definitions: &Definitions<'t>,
    faults: &mut Faults<'t>,
) -> Result<Spaces<'t, ChannelId>, AllocError>
    ensures spaces { IfOk result (λ spaces. Has spaces (channel_entries (rows_of definitions.now))) }
    ensures noted { IfOk result (λ spaces. Notes faults.old faults.new
        (duplicates (standings (channel_entries (rows_of definitions.now))))) }
{
    let declarations = channel_declarations(alloc, &definitions.channels)?;
    declare_all(alloc, &declarations, faults)
}

fn channel_declarations<'t>(
    alloc: Global,
    table: &[ChannelEntry<'t>],
) -> Result<Vec<Declaration<'t, ChannelId>>, AllocError>
    ensures { IfOk result (λ declarations. entries_of declarations.items
        ≡ channels_from 0 (map channel_seen table.now)) }
{
    let mut declarations = Vec::new(alloc);
    let mut next = 0;
    for entry in table {
        add(
            &mut declarations,
            Declaration {
                scope: entry.scope,
                name: &entry.definition.name,
                what: ChannelId(next),
            },
        )?;
        next = next_number(next)?;
    }
    Ok(declarations)
}
