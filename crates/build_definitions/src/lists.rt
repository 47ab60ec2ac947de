//! Tables of signal lists, channels, connections and signal sets.

ghost use Rattle.std.specs.Prelude.{◌≡◌, ◌++◌, map, OnOk};
ghost use Rattle.build_definitions.specs.Rows.{placed_channels, placed_connections, placed_signal_lists, placed_signal_sets};
ghost use Rattle.build_definitions.specs.Seen.{channel_seen, connection_seen, signal_list_seen, signal_set_seen};
ghost use Rattle.build_definitions.specs.Views.{placed_value};

use crate::enter::enter;
use crate::entries::{ChannelEntry, ConnectionEntry, SignalListEntry, SignalSetEntry};
use crate::part::{Part, Placed};
use std::alloc::AllocError;

pub fn add_signal_list<'t>(
    table: &mut Vec<SignalListEntry<'t>>,
    placed: Placed<'t>,
) -> Result<(), AllocError>
    ensures { OnOk result (map signal_list_seen table.new.items
        ≡ map signal_list_seen table.old.items ++ placed_signal_lists (placed_value placed.entry)) }
{
    match placed.part {
        Part::SignalList(definition) => {
            enter(
                table,
                SignalListEntry {
                    scope: placed.scope,
                    definition,
                },
            )
        }
        _ => Ok(()),
    }
}

pub fn add_channel<'t>(
    table: &mut Vec<ChannelEntry<'t>>,
    placed: Placed<'t>,
) -> Result<(), AllocError>
    ensures { OnOk result (map channel_seen table.new.items
        ≡ map channel_seen table.old.items ++ placed_channels (placed_value placed.entry)) }
{
    match placed.part {
        Part::Channel(definition) => {
            enter(
                table,
                ChannelEntry {
                    scope: placed.scope,
                    definition,
                },
            )
        }
        _ => Ok(()),
    }
}

pub fn add_connection<'t>(
    table: &mut Vec<ConnectionEntry<'t>>,
    placed: Placed<'t>,
) -> Result<(), AllocError>
    ensures { OnOk result (map connection_seen table.new.items
        ≡ map connection_seen table.old.items ++ placed_connections (placed_value placed.entry)) }
{
    match placed.part {
        Part::Connection(definition) => {
            enter(
                table,
                ConnectionEntry {
                    scope: placed.scope,
                    definition,
                },
            )
        }
        _ => Ok(()),
    }
}

pub fn add_signal_set<'t>(
    table: &mut Vec<SignalSetEntry<'t>>,
    placed: Placed<'t>,
) -> Result<(), AllocError>
    ensures { OnOk result (map signal_set_seen table.new.items
        ≡ map signal_set_seen table.old.items ++ placed_signal_sets (placed_value placed.entry)) }
{
    match placed.part {
        Part::SignalSet(definition) => {
            enter(
                table,
                SignalSetEntry {
                    scope: placed.scope,
                    definition,
                },
            )
        }
        _ => Ok(()),
    }
}
