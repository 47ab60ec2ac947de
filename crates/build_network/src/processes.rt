//! Processes, as a network has them.

ghost use Rattle.std.specs.Prelude.{◌≡◌, ◌++◌, ◌+◌, ◌^◌, ◌<◌, ◌≤◌, length, map, IfOk, IsOk, OnOk};
ghost use Rattle.build_definitions.specs.Seen.{process_seen};
ghost use Rattle.build_network.specs.Processes.{faults_of, lists_of, named_items, process_at, process_lists, processes_faults, processes_from, scope_of, timers_items, two_lists};
ghost use Rattle.build_network.specs.Seen.{list_items, seen_of};
ghost use Rattle.build_names.specs.Faults.{Notes};
ghost use Rattle.sdl_tree.specs.Views.{process_value};

use crate::lists::add_list;
use crate::mentions::{add_named, add_timers, note_sets};
use crate::seen::{Seen, path_within, seen_at};
use build_definitions::{ProcessEntry, SymbolTable};
use build_names::{Faults, ScopeId};
use build_routes::{Item, Process, Scope, SignalList, counted};
use sdl_system::ProcessId;
use sdl_tree::ProcessDefinition;
use std::alloc::{AllocError, Global};

/// Adds two lists for each process, what it names and its timers, and answers the processes as a network has them.
pub fn add_processes<'t>(
    alloc: Global,
    symbols: &SymbolTable<'_, 't>,
    entries: &[ProcessEntry<'t>],
    lists: &mut Vec<SignalList>,
) -> Result<Vec<Process>, AllocError>
    ensures processes { IfOk result (λ processes. processes.items
        ≡ processes_from (length lists.old.items) (map process_seen entries.now)) }
    ensures lists { OnOk result (map list_items lists.new.items
        ≡ map list_items lists.old.items ++ process_lists symbols.now (map process_seen entries.now)) }
{
    let mut processes = Vec::new(alloc);
    for (index, entry) in entries.iter().enumerate() {
        let process = add_process(alloc, symbols, index, entry, lists)?;
        processes.push(process)?;
    }
    Ok(processes)
}

fn add_process<'t>(
    alloc: Global,
    symbols: &SymbolTable<'_, 't>,
    index: usize,
    entry: &ProcessEntry<'t>,
    lists: &mut Vec<SignalList>,
) -> Result<Process, AllocError>
    ensures process { IfOk result (λ process. process ≡ process_at (length lists.old.items) (process_seen entry.now)) }
    ensures lists { OnOk result (map list_items lists.new.items
        ≡ map list_items lists.old.items ++ lists_of symbols.now index (process_seen entry.now)) }
    ensures count { OnOk result (length lists.new.items ≡ length lists.old.items + 2) }
{
    let number = counted(index)?;
    let seen = seen_at(symbols, path_within(ProcessId(number), entry.scope));
    add_lists(alloc, &seen, entry, lists)
}

fn add_lists<'t>(
    alloc: Global,
    seen: &Seen<'_, '_, 't>,
    entry: &ProcessEntry<'t>,
    lists: &mut Vec<SignalList>,
) -> Result<Process, AllocError>
    ensures process { IfOk result (λ process. process ≡ process_at (length lists.old.items) (process_seen entry.now)) }
    ensures lists { OnOk result (map list_items lists.new.items
        ≡ map list_items lists.old.items ++ two_lists (seen_of seen.now) (process_value entry.now.definition.now)) }
    ensures count { OnOk result (length lists.new.items ≡ length lists.old.items + 2) }
{
    let named = add_list(named_list(alloc, seen, entry.definition)?, lists)?;
    let timers = add_list(timer_list(alloc, seen, entry.definition)?, lists)?;
    Ok(Process {
        scope: scope_of(entry.scope),
        named,
        timers,
    })
}

fn named_list(
    alloc: Global,
    seen: &Seen<'_, '_, '_>,
    process: &ProcessDefinition,
) -> Result<Vec<Item>, AllocError>
    ensures { IfOk result (λ list. list.items ≡ named_items (seen_of seen.now) (process_value process.now)) }
{
    let mut list = Vec::new(alloc);
    add_named(seen, process, &mut list)?;
    Ok(list)
}

fn timer_list(
    alloc: Global,
    seen: &Seen<'_, '_, '_>,
    process: &ProcessDefinition,
) -> Result<Vec<Item>, AllocError>
    ensures { IfOk result (λ list. list.items ≡ timers_items (seen_of seen.now) (process_value process.now)) }
{
    let mut list = Vec::new(alloc);
    add_timers(seen, process, &mut list)?;
    Ok(list)
}

/// Notes the names in the signal sets of the processes that stand for nothing. Refused only where there are more
/// processes than numbers of 32 bits.
pub fn note_processes<'t>(
    symbols: &SymbolTable<'_, 't>,
    entries: &[ProcessEntry<'t>],
    faults: &mut Faults<'t>,
) -> Result<(), AllocError>
    ensures noted { OnOk result (Notes faults.old faults.new
        (processes_faults symbols.now (map process_seen entries.now))) }
    ensures few { length entries.now ≤ 2 ^ 32 → IsOk result }
{
    for (index, entry) in entries.iter().enumerate() {
        note_process(symbols, index, entry, faults)?;
    }
    Ok(())
}

fn note_process<'t>(
    symbols: &SymbolTable<'_, 't>,
    index: usize,
    entry: &ProcessEntry<'t>,
    faults: &mut Faults<'t>,
) -> Result<(), AllocError>
    ensures noted { OnOk result (Notes faults.old faults.new (faults_of symbols.now index (process_seen entry.now))) }
    ensures few { index < 2 ^ 32 → IsOk result }
{
    let number = counted(index)?;
    let definition = entry.definition;
    let seen = seen_at(symbols, path_within(ProcessId(number), entry.scope));
    note_sets(&seen, definition, faults);
    Ok(())
}

/// Channels and agents stand in the system or in a block, and never in a process.
pub fn scope_of(scope: ScopeId) -> Scope
    ensures { result ≡ scope_of scope }
{
    match scope {
        ScopeId::System | ScopeId::Process(_) => Scope::System,
        ScopeId::Block(block) => Scope::Block(block),
    }
}
