//! The connects of blocks.

ghost use Rattle.std.specs.Prelude.{◌≡◌, ◌++◌, flat_map, map, IfOk, OnOk};
ghost use Rattle.build_definitions.specs.Seen.{connection_seen};
ghost use Rattle.build_network.specs.Connects.{channel_faults, connect_faults, connect_in, connect_value, connects_of, ids_of, named_paths, numbers_at};
ghost use Rattle.build_names.specs.Faults.{Notes};
ghost use Rattle.build_names.specs.Spaces.{names_of};
ghost use Rattle.sdl_tree.specs.Views.{connection_value, name_value, names_value};

use crate::agents::get_at;
use crate::paths::ChannelPaths;
use crate::seen::note_unknown;
use build_definitions::{ChannelId, ConnectionEntry, SymbolTable};
use build_names::{Faults, ScopeId, Spaces, Token};
use build_routes::{Connect, PathId};
use sdl_system::BlockId;
use sdl_tree::{ChannelConnection, Name};
use std::alloc::{AllocError, Global};

/// The connects as a network has them.
pub fn all_connects<'t>(
    alloc: Global,
    symbols: &SymbolTable<'_, 't>,
    numbers: &[ChannelPaths],
    entries: &[ConnectionEntry<'t>],
) -> Result<Vec<Connect>, AllocError>
    ensures { IfOk result (λ connects. map connect_value connects.items
        ≡ flat_map (connects_of symbols.now numbers.now) (map connection_seen entries.now)) }
{
    let mut connects = Vec::new(alloc);
    for entry in entries {
        add_connect(alloc, symbols, numbers, entry, &mut connects)?;
    }
    Ok(connects)
}

/// Notes the names that stand for no channel.
pub fn note_connects<'t>(
    symbols: &SymbolTable<'_, 't>,
    entries: &[ConnectionEntry<'t>],
    faults: &mut Faults<'t>,
)
    ensures { Notes faults.old faults.new (flat_map (connect_faults symbols.now) (map connection_seen entries.now)) }
{
    for entry in entries {
        note_connect(symbols, entry, faults);
    }
}

fn add_connect<'t>(
    alloc: Global,
    symbols: &SymbolTable<'_, 't>,
    numbers: &[ChannelPaths],
    entry: &ConnectionEntry<'t>,
    connects: &mut Vec<Connect>,
) -> Result<(), AllocError>
    ensures { OnOk result (map connect_value connects.new.items
        ≡ map connect_value connects.old.items ++ connects_of symbols.now numbers.now (connection_seen entry.now)) }
{
    match entry.scope {
        ScopeId::Block(block) => {
            let connect = connect_in(alloc, symbols, numbers, block, entry.definition)?;
            connects.push(connect)?;
            Ok(())
        }
        ScopeId::System | ScopeId::Process(_) => Ok(()),
    }
}

fn connect_in<'t>(
    alloc: Global,
    symbols: &SymbolTable<'_, 't>,
    numbers: &[ChannelPaths],
    block: BlockId,
    connection: &ChannelConnection,
) -> Result<Connect, AllocError>
    ensures { IfOk result (λ connect. connect_value connect
        ≡ connect_in symbols.now numbers.now block (connection_value connection.now)) }
{
    let channels = &symbols.channels;
    let outer = named_paths(alloc, numbers, channels, ScopeId::System, &connection.outer)?;
    let inner = named_paths(
        alloc,
        numbers,
        channels,
        ScopeId::Block(block),
        &connection.inner,
    )?;
    Ok(Connect {
        block,
        outer,
        inner,
    })
}

/// All paths of the channels of these names in just this scope.
fn named_paths(
    alloc: Global,
    numbers: &[ChannelPaths],
    channels: &Spaces<'_, ChannelId>,
    scope: ScopeId,
    names: &[Name],
) -> Result<Vec<PathId>, AllocError>
    ensures { IfOk result (λ paths. paths.items
        ≡ flat_map (named_paths numbers.now (names_of channels.now scope)) (names_value names.now)) }
{
    let mut paths = Vec::new(alloc);
    for name in names {
        let found = numbers_at(numbers, get_at(channels, scope, &name.text));
        add_ids(found, &mut paths)?;
    }
    Ok(paths)
}

fn numbers_at(numbers: &[ChannelPaths], channel: Option<ChannelId>) -> Option<ChannelPaths>
    ensures { result ≡ numbers_at numbers.now channel }
{
    match channel {
        None => None,
        Some(channel) => numbers.get(channel.0 as usize).copied(),
    }
}

fn add_ids(found: Option<ChannelPaths>, paths: &mut Vec<PathId>) -> Result<(), AllocError>
    ensures { OnOk result (paths.new.items ≡ paths.old.items ++ ids_of found) }
{
    if let Some(numbers) = found {
        paths.push(numbers.first)?;
        if let Some(second) = numbers.second {
            paths.push(second)?;
        }
    }
    Ok(())
}

fn note_connect<'t>(
    symbols: &SymbolTable<'_, 't>,
    entry: &ConnectionEntry<'t>,
    faults: &mut Faults<'t>,
)
    ensures { Notes faults.old faults.new (connect_faults symbols.now (connection_seen entry.now)) }
{
    let definition = entry.definition;
    note_channels(
        &symbols.channels,
        ScopeId::System,
        &definition.outer,
        faults,
    );
    note_channels(&symbols.channels, entry.scope, &definition.inner, faults);
}

fn note_channels<'t>(
    channels: &Spaces<'_, ChannelId>,
    scope: ScopeId,
    names: &'t [Name],
    faults: &mut Faults<'t>,
)
    ensures { Notes faults.old faults.new
        (flat_map (channel_faults (names_of channels.now scope)) (names_value names.now)) }
{
    for name in names {
        note_channel(channels, scope, name, faults);
    }
}

fn note_channel<'t>(
    channels: &Spaces<'_, ChannelId>,
    scope: ScopeId,
    name: &'t Name,
    faults: &mut Faults<'t>,
)
    ensures { Notes faults.old faults.new (channel_faults (names_of channels.now scope) (name_value name.now)) }
{
    let found = get_at(channels, scope, &name.text);
    note_unknown(found.is_none(), Token::of_name(name), faults);
}
