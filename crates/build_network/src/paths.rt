//! The paths of channels.

ghost use Rattle.std.specs.Prelude.{◌≡◌, ◌++◌, ◌+◌, ◌∷◌, [], flat_map, length, map, option_map, IfOk, OnOk};
ghost use Rattle.build_definitions.specs.Seen.{channel_seen};
ghost use Rattle.build_network.specs.Paths.{carried, channel_paths, items_if, numbers_from, numbers_of, path_faults, path_of, paths_from, placed_value, second_number, second_path, seen_from};
ghost use Rattle.build_network.specs.Seen.{items_faults, list_items};
ghost use Rattle.build_names.specs.Faults.{Notes};
ghost use Rattle.sdl_tree.specs.Views.{path_value};

use crate::agents::{end_in, note_end};
use crate::processes::scope_of;
use crate::seen::{path_at, seen_at};
use build_definitions::{ChannelEntry, SymbolTable};
use build_names::{Faults, Names, ScopeId};
use build_routes::{ChannelPath, End, Item, ListId, PathId, SignalList, counted};
use sdl_system::BlockId;
use sdl_tree::ChannelPath as PathDefinition;
use std::alloc::{AllocError, Global};

/// A path, with the scope of its channel.
#[derive(Clone, Copy)]
pub struct PathEntry<'t> {
    pub scope: ScopeId,
    pub path: &'t PathDefinition,
}

/// The numbers of the paths of a channel.
#[derive(Clone, Copy)]
pub struct ChannelPaths {
    pub first: PathId,
    pub second: Option<PathId>,
}

/// The paths of all channels in the order of the text, and their numbers by channel.
#[derive(Drop)]
pub struct Paths<'t> {
    pub entries: Vec<PathEntry<'t>>,
    pub numbers: Vec<ChannelPaths>,
}

pub fn all_paths<'t>(alloc: Global, channels: &[ChannelEntry<'t>]) -> Result<Paths<'t>, AllocError>
    ensures entries { IfOk result (λ paths. map placed_value paths.entries.items
        ≡ flat_map channel_paths (map channel_seen channels.now)) }
    ensures numbers { IfOk result (λ paths. paths.numbers.items ≡ numbers_from 0 (map channel_seen channels.now)) }
{
    let mut paths = Paths {
        entries: Vec::new(alloc),
        numbers: Vec::new(alloc),
    };
    for channel in channels {
        add_channel(channel, &mut paths)?;
    }
    Ok(paths)
}

fn add_channel<'t>(channel: &ChannelEntry<'t>, paths: &mut Paths<'t>) -> Result<(), AllocError>
    ensures entries { OnOk result (map placed_value paths.new.entries.items
        ≡ map placed_value paths.old.entries.items ++ channel_paths (channel_seen channel.now)) }
    ensures numbers { OnOk result (paths.new.numbers.items
        ≡ paths.old.numbers.items ++ numbers_of (length paths.old.entries.items) (channel_seen channel.now) ∷ []) }
{
    let scope = channel.scope;
    let definition = channel.definition;
    let first = add_entry(scope, &definition.first, &mut paths.entries)?;
    let second = add_second(scope, &definition.second, &mut paths.entries)?;
    paths.numbers.push(ChannelPaths { first, second })?;
    Ok(())
}

/// Adds a path, and answers its number.
fn add_entry<'t>(
    scope: ScopeId,
    path: &'t PathDefinition,
    entries: &mut Vec<PathEntry<'t>>,
) -> Result<PathId, AllocError>
    ensures number { IfOk result (λ number. number.0 ≡ length entries.old.items) }
    ensures entries { OnOk result (map placed_value entries.new.items
        ≡ map placed_value entries.old.items ++ record { scope = scope; path = path_value path.now } ∷ []) }
    ensures count { OnOk result (length entries.new.items ≡ length entries.old.items + 1) }
{
    let number = counted(entries.len())?;
    entries.push(PathEntry { scope, path })?;
    Ok(PathId(number))
}

fn add_second<'t>(
    scope: ScopeId,
    path: &'t Option<PathDefinition>,
    entries: &mut Vec<PathEntry<'t>>,
) -> Result<Option<PathId>, AllocError>
    ensures number { IfOk result (λ number. number
        ≡ second_number (length entries.old.items) (option_map path_value path.now)) }
    ensures entries { OnOk result (map placed_value entries.new.items
        ≡ map placed_value entries.old.items ++ second_path scope (option_map path_value path.now)) }
{
    match path {
        None => Ok(None),
        Some(path) => {
            let number = add_entry(scope, path, entries)?;
            Ok(Some(number))
        }
    }
}

/// Adds what these paths carry to the lists, and answers the paths as a network has them.
pub fn add_paths<'t>(
    alloc: Global,
    symbols: &SymbolTable<'_, 't>,
    blocks: &Names<'_, BlockId>,
    entries: &[PathEntry<'t>],
    lists: &mut Vec<SignalList>,
) -> Result<Vec<ChannelPath>, AllocError>
    ensures paths { IfOk result (λ paths. paths.items
        ≡ paths_from symbols.now blocks.now (length lists.old.items) (map placed_value entries.now)) }
    ensures lists { OnOk result (map list_items lists.new.items
        ≡ map list_items lists.old.items ++ map (carried symbols.now blocks.now) (map placed_value entries.now)) }
    ensures count { OnOk result (length lists.new.items ≡ length lists.old.items + length entries.now) }
{
    let mut paths = Vec::new(alloc);
    for entry in entries {
        let path = add_path(alloc, symbols, blocks, entry, lists)?;
        paths.push(path)?;
    }
    Ok(paths)
}

/// Notes the names of ends, of signals and of signal lists that stand for nothing.
pub fn note_paths<'t>(
    symbols: &SymbolTable<'_, 't>,
    blocks: &Names<'_, BlockId>,
    entries: &[PathEntry<'t>],
    faults: &mut Faults<'t>,
)
    ensures { Notes faults.old faults.new
        (flat_map (path_faults symbols.now blocks.now) (map placed_value entries.now)) }
{
    for entry in entries {
        note_path(symbols, blocks, entry, faults);
    }
}

fn add_path<'t>(
    alloc: Global,
    symbols: &SymbolTable<'_, 't>,
    blocks: &Names<'_, BlockId>,
    entry: &PathEntry<'t>,
    lists: &mut Vec<SignalList>,
) -> Result<ChannelPath, AllocError>
    ensures path { IfOk result (λ path. path
        ≡ path_of symbols.now blocks.now (length lists.old.items) (placed_value entry.now)) }
    ensures lists { OnOk result (map list_items lists.new.items
        ≡ map list_items lists.old.items ++ carried symbols.now blocks.now (placed_value entry.now) ∷ []) }
    ensures count { OnOk result (length lists.new.items ≡ length lists.old.items + 1) }
{
    let number = counted(lists.len())?;
    let from = end_in(blocks, &symbols.agents, entry.scope, &entry.path.from);
    let to = end_in(blocks, &symbols.agents, entry.scope, &entry.path.to);
    let items = carried(alloc, symbols, entry, from.is_some() && to.is_some())?;
    lists.push(SignalList { items })?;
    Ok(ChannelPath {
        scope: scope_of(entry.scope),
        from: from.unwrap_or(End::Env),
        to: to.unwrap_or(End::Env),
        signals: ListId(number),
    })
}

/// Lists the items that a path carries. It carries none unless it has both ends.
fn carried<'t>(
    alloc: Global,
    symbols: &SymbolTable<'_, 't>,
    entry: &PathEntry<'t>,
    has_ends: bool,
) -> Result<Vec<Item>, AllocError>
    ensures { IfOk result (λ items. items.items
        ≡ items_if has_ends (seen_from symbols.now entry.now.scope) (placed_value entry.now).path.signals) }
{
    let mut items = Vec::new(alloc);
    if has_ends {
        let seen = seen_at(symbols, path_at(entry.scope));
        seen.add_items(&entry.path.signals, &mut items)?;
    }
    Ok(items)
}

fn note_path<'t>(
    symbols: &SymbolTable<'_, 't>,
    blocks: &Names<'_, BlockId>,
    entry: &PathEntry<'t>,
    faults: &mut Faults<'t>,
)
    ensures { Notes faults.old faults.new (path_faults symbols.now blocks.now (placed_value entry.now)) }
{
    let path = entry.path;
    note_end(blocks, &symbols.agents, entry.scope, &path.from, faults);
    note_end(blocks, &symbols.agents, entry.scope, &path.to, faults);
    note_signals(symbols, entry.scope, path, faults);
}

fn note_signals<'t>(
    symbols: &SymbolTable<'_, 't>,
    scope: ScopeId,
    path: &'t PathDefinition,
    faults: &mut Faults<'t>,
)
    ensures { Notes faults.old faults.new (items_faults (seen_from symbols.now scope) (path_value path.now).signals) }
{
    let seen = seen_at(symbols, path_at(scope));
    seen.note_items(&path.signals, faults);
}
