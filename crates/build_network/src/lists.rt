//! Signal lists, as a network has them.

ghost use Rattle.std.specs.Prelude.{◌≡◌, ◌++◌, ◌+◌, ◌∷◌, [], flat_map, length, map, IfOk, OnOk};
ghost use Rattle.build_definitions.specs.Seen.{signal_list_seen};
ghost use Rattle.build_definitions.specs.Definitions.{rows_of};
ghost use Rattle.build_network.specs.Lists.{list_at, list_faults};
ghost use Rattle.build_network.specs.Seen.{list_items};
ghost use Rattle.build_names.specs.Faults.{Notes};

use crate::seen::seen_at;
use build_definitions::{Definitions, SignalListEntry, SymbolTable};
use build_names::Faults;
use build_routes::{Item, ListId, SignalList, counted};
use std::alloc::{AllocError, Global};

/// Adds a list of these items, and answers its number.
pub fn add_list(items: Vec<Item>, lists: &mut Vec<SignalList>) -> Result<ListId, AllocError>
    ensures number { IfOk result (λ number. number.0 ≡ length lists.old.items) }
    ensures lists { OnOk result (map list_items lists.new.items ≡ map list_items lists.old.items ++ items.items ∷ []) }
    ensures count { OnOk result (length lists.new.items ≡ length lists.old.items + 1) }
{
    let number = counted(lists.len())?;
    lists.push(SignalList { items })?;
    Ok(ListId(number))
}

/// The lists that have names, by their numbers.
pub fn named_lists<'t>(
    alloc: Global,
    symbols: &SymbolTable<'_, 't>,
    definitions: &Definitions<'t>,
) -> Result<Vec<SignalList>, AllocError>
    ensures lists { IfOk result (λ lists. map list_items lists.items
        ≡ map (list_at symbols.now (rows_of definitions.now).processes) (rows_of definitions.now).lists) }
    ensures count { IfOk result (λ lists. length lists.items ≡ length (rows_of definitions.now).lists) }
{
    let mut lists = Vec::new(alloc);
    for entry in &definitions.lists {
        let items = items_of(alloc, symbols, definitions, entry)?;
        lists.push(SignalList { items })?;
    }
    Ok(lists)
}

fn items_of<'t>(
    alloc: Global,
    symbols: &SymbolTable<'_, 't>,
    definitions: &Definitions<'t>,
    entry: &SignalListEntry<'t>,
) -> Result<Vec<Item>, AllocError>
    ensures { IfOk result (λ items. items.items ≡ list_at symbols.now (rows_of definitions.now).processes
        (signal_list_seen entry.now)) }
{
    let mut items = Vec::new(alloc);
    let seen = seen_at(symbols, definitions.path_of(entry.scope));
    seen.add_items(&entry.definition.items, &mut items)?;
    Ok(items)
}

/// Notes the names in these lists that stand for nothing.
pub fn note_lists<'t>(
    symbols: &SymbolTable<'_, 't>,
    definitions: &Definitions<'t>,
    faults: &mut Faults<'t>,
)
    ensures { Notes faults.old faults.new
        (flat_map (list_faults symbols.now (rows_of definitions.now).processes) (rows_of definitions.now).lists) }
{
    for entry in &definitions.lists {
        note_list(symbols, definitions, entry, faults);
    }
}

fn note_list<'t>(
    symbols: &SymbolTable<'_, 't>,
    definitions: &Definitions<'t>,
    entry: &SignalListEntry<'t>,
    faults: &mut Faults<'t>,
)
    ensures { Notes faults.old faults.new
        (list_faults symbols.now (rows_of definitions.now).processes (signal_list_seen entry.now)) }
{
    let definition = entry.definition;
    let seen = seen_at(symbols, definitions.path_of(entry.scope));
    seen.note_items(&definition.items, faults);
}
