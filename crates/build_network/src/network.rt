//! The network of a specification.

ghost use Rattle.std.specs.Prelude.{◌≡◌, ◌++◌, ◌+◌, flat_map, length, map, IfOk, OnOk};
ghost use Rattle.build_definitions.specs.Seen.{block_seen, channel_seen};
ghost use Rattle.build_definitions.specs.Definitions.{rows_of};
ghost use Rattle.build_network.specs.Agents.{block_names};
ghost use Rattle.build_network.specs.Connects.{connect_value};
ghost use Rattle.build_network.specs.Network.{all_paths, blocks_in, has_no_channel, network_connects, network_faults, network_lists, network_paths, network_processes};
ghost use Rattle.build_network.specs.Seen.{list_items};
ghost use Rattle.build_network.specs.Paths.{carried, channel_paths, path_faults, paths_from};
ghost use Rattle.build_names.specs.Faults.{Notes};
ghost use Rattle.build_names.specs.declared.scopes.scope.ScopeId.TheVariants as scope;

use crate::agents::{block_names, is_empty_at};
use crate::connects::{all_connects, note_connects};
use crate::lists::{named_lists, note_lists};
use crate::paths::{add_paths, all_paths, note_paths};
use crate::processes::{add_processes, note_processes};
use build_definitions::{BlockEntry, ChannelEntry, Definitions, SymbolTable};
use build_names::{Faults, Names, ScopeId};
use build_routes::{Block, ChannelPath, Connect, Network, Process, SignalList, counted};
use sdl_system::BlockId;
use std::alloc::{AllocError, Global};

/// The lists of a network, and what has numbers of these.
#[derive(Drop)]
struct Listed {
    lists: Vec<SignalList>,
    paths: Vec<ChannelPath>,
    processes: Vec<Process>,
}

/// Makes the network that joins the agents of a specification with these definitions and names.
///
/// Its lists are the signal lists by their numbers, then what each path of a channel carries, in the order of the text,
/// then two for each process: what it inputs, saves or has in its signal sets by name, and its timers. A path one of
/// whose ends is unknown carries nothing.
pub fn network_of<'t>(
    alloc: Global,
    definitions: &Definitions<'t>,
    symbols: &SymbolTable<'_, 't>,
) -> Result<Network, AllocError>
    ensures signals { IfOk result (λ network. network.signals ≡ length (rows_of definitions.now).signals) }
    ensures lists { IfOk result (λ network. map list_items network.lists.items
        ≡ network_lists (rows_of definitions.now) symbols.now) }
    ensures is_implied { IfOk result (λ network. network.is_implied ≡ has_no_channel symbols.now scope.System) }
    ensures processes { IfOk result (λ network. network.processes.items ≡ network_processes (rows_of definitions.now)) }
    ensures blocks { IfOk result (λ network. network.blocks.items
        ≡ blocks_in symbols.now (rows_of definitions.now).blocks) }
    ensures paths { IfOk result (λ network. network.paths.items ≡ network_paths (rows_of definitions.now) symbols.now) }
    ensures connects { IfOk result (λ network. map connect_value network.connects.items
        ≡ network_connects (rows_of definitions.now) symbols.now) }
{
    let signals = counted(definitions.signals.len())?;
    let is_implied = is_empty_at(&symbols.channels, ScopeId::System);
    let blocks = blocks_in(alloc, symbols, &definitions.blocks)?;
    let connects = connects_in(alloc, definitions, symbols)?;
    let Listed {
        lists,
        paths,
        processes,
    } = listed_in(alloc, definitions, symbols)?;
    Ok(Network {
        signals,
        lists,
        is_implied,
        processes,
        blocks,
        paths,
        connects,
    })
}

/// The connects, by the numbers of the paths that they name.
fn connects_in<'t>(
    alloc: Global,
    definitions: &Definitions<'t>,
    symbols: &SymbolTable<'_, 't>,
) -> Result<Vec<Connect>, AllocError>
    ensures { IfOk result (λ connects. map connect_value connects.items
        ≡ network_connects (rows_of definitions.now) symbols.now) }
{
    let paths = all_paths(alloc, &definitions.channels)?;
    all_connects(alloc, symbols, &paths.numbers, &definitions.connections)
}

/// The lists, with the paths and the processes, each of which has numbers of lists.
fn listed_in<'t>(
    alloc: Global,
    definitions: &Definitions<'t>,
    symbols: &SymbolTable<'_, 't>,
) -> Result<Listed, AllocError>
    ensures lists { IfOk result (λ listed. map list_items listed.lists.items
        ≡ network_lists (rows_of definitions.now) symbols.now) }
    ensures paths { IfOk result (λ listed. listed.paths.items ≡ network_paths (rows_of definitions.now) symbols.now) }
    ensures processes { IfOk result (λ listed. listed.processes.items ≡ network_processes (rows_of definitions.now)) }
{
    let mut lists = named_lists(alloc, symbols, definitions)?;
    let paths = paths_in(alloc, definitions, symbols, &mut lists)?;
    let processes = add_processes(alloc, symbols, &definitions.processes, &mut lists)?;
    Ok(Listed {
        lists,
        paths,
        processes,
    })
}

/// Adds what the paths carry to the lists, and answers the paths.
fn paths_in<'t>(
    alloc: Global,
    definitions: &Definitions<'t>,
    symbols: &SymbolTable<'_, 't>,
    lists: &mut Vec<SignalList>,
) -> Result<Vec<ChannelPath>, AllocError>
    ensures paths { IfOk result (λ paths. paths.items
        ≡ paths_from symbols.now (block_names (rows_of definitions.now).blocks) (length lists.old.items)
        (all_paths (rows_of definitions.now))) }
    ensures lists { OnOk result (map list_items lists.new.items
        ≡ map list_items lists.old.items ++ map (carried symbols.now (block_names (rows_of definitions.now).blocks))
        (all_paths (rows_of definitions.now))) }
    ensures count { OnOk result (length lists.new.items
        ≡ length lists.old.items + length (all_paths (rows_of definitions.now))) }
{
    let names = block_names(alloc, &definitions.blocks)?;
    paths_of(alloc, symbols, &names, &definitions.channels, lists)
}

/// Adds what the paths of these channels carry to the lists, and answers the paths.
fn paths_of<'t>(
    alloc: Global,
    symbols: &SymbolTable<'_, 't>,
    blocks: &Names<'_, BlockId>,
    channels: &[ChannelEntry<'t>],
    lists: &mut Vec<SignalList>,
) -> Result<Vec<ChannelPath>, AllocError>
    ensures paths { IfOk result (λ paths. paths.items
        ≡ paths_from symbols.now blocks.now (length lists.old.items)
        (flat_map channel_paths (map channel_seen channels.now))) }
    ensures lists { OnOk result (map list_items lists.new.items ≡ map list_items lists.old.items
        ++ map (carried symbols.now blocks.now) (flat_map channel_paths (map channel_seen channels.now))) }
    ensures count { OnOk result (length lists.new.items
        ≡ length lists.old.items + length (flat_map channel_paths (map channel_seen channels.now))) }
{
    let paths = all_paths(alloc, channels)?;
    add_paths(alloc, symbols, blocks, &paths.entries, lists)
}

fn blocks_in<'t>(
    alloc: Global,
    symbols: &SymbolTable<'_, 't>,
    entries: &[BlockEntry<'t>],
) -> Result<Vec<Block>, AllocError>
    ensures { IfOk result (λ blocks. blocks.items ≡ blocks_in symbols.now (map block_seen entries.now)) }
{
    let mut blocks = Vec::new(alloc);
    for (index, _entry) in entries.iter().enumerate() {
        let number = counted(index)?;
        let is_implied = is_empty_at(&symbols.channels, ScopeId::Block(BlockId(number)));
        blocks.push(Block { is_implied })?;
    }
    Ok(blocks)
}

/// Notes each name that stands for nothing in a signal list, at an end of a channel or among its signals, in a signal
/// set or in a connect.
pub fn note_network<'t>(
    alloc: Global,
    definitions: &Definitions<'t>,
    symbols: &SymbolTable<'_, 't>,
    faults: &mut Faults<'t>,
) -> Result<(), AllocError>
    ensures { OnOk result (Notes faults.old faults.new (network_faults (rows_of definitions.now) symbols.now)) }
{
    note_lists(symbols, definitions, faults);
    note_channels(alloc, definitions, symbols, faults)?;
    note_processes(symbols, &definitions.processes, faults)?;
    note_connects(symbols, &definitions.connections, faults);
    Ok(())
}

/// Notes each name that stands for nothing at an end of a channel or among its signals.
fn note_channels<'t>(
    alloc: Global,
    definitions: &Definitions<'t>,
    symbols: &SymbolTable<'_, 't>,
    faults: &mut Faults<'t>,
) -> Result<(), AllocError>
    ensures { OnOk result (Notes faults.old faults.new
        (flat_map (path_faults symbols.now (block_names (rows_of definitions.now).blocks))
        (all_paths (rows_of definitions.now)))) }
{
    let names = block_names(alloc, &definitions.blocks)?;
    let paths = all_paths(alloc, &definitions.channels)?;
    note_paths(symbols, &names, &paths.entries, faults);
    Ok(())
}
