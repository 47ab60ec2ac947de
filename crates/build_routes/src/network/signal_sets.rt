//! For each list of signals the set of signals that it stands for.
//!
//! The signals of a list flow to each list that names it, 64 signals at a time. So the cost is that of the text of all
//! lists for each 64 signals, and as many steps more as there are lists through which a signal comes to a list.

ghost use Rattle.std.specs.Prelude.{◌≡◌, ◌⊎◌, ℕ, ◌<◌, ◌/◌, ◌%◌, ◌↔◌, IfOk, IsTrue, OnOk};
ghost use Rattle.port_model.specs.declared.values.item.SignalId.{SignalId};
ghost use Rattle.build_routes.specs.Each.{ForSome};
ghost use Rattle.build_routes.specs.Graph.{Adds, Leads};
ghost use Rattle.build_routes.specs.Mask.{Bit, Has};
ghost use Rattle.build_routes.specs.SignalLists.{AreSets, EntryStep, EntrySteps, HasSignal, IsSignalAt, ListSteps, NamesIn, column_of};
ghost use Rattle.build_routes.specs.declared.network.list.ListId.{ListId};
ghost use Rattle.build_routes.specs.declared.network.graph.Step.{Step};

use crate::network::graph::{Graph, Step};
use crate::network::list::{Item, ListId, SignalList};
use crate::network::mask::{has_bit, mask_at, with_bit};
use port_model::SignalId;
use std::alloc::{AllocError, Global};

/// For each list, by its number, the signals that it stands for.
#[derive(Drop)]
pub struct SignalSets {
    columns: Vec<Column>,
}

/// The masks of all lists for 64 signals.
#[derive(Drop)]
struct Column {
    masks: Vec<u64>,
}

impl SignalSets {
    /// The sets of these lists, of the signals with a number below `signals`. A list that isn't there has none.
    pub fn of_lists(
        alloc: Global,
        lists: &[SignalList],
        signals: u32,
    ) -> Result<SignalSets, AllocError>
        ensures { IfOk result (AreSets lists.now signals) }
    {
        let graph = graph_of(alloc, lists)?;
        let mut columns = Vec::new(alloc);
        for word in 0..signals / 64 + 1 {
            let start = own_masks(alloc, lists, word)?;
            let masks = graph.flow(alloc, &[], start)?;
            columns.push(Column { masks })?;
        }
        Ok(SignalSets { columns })
    }

    /// Whether the list stands for the signal.
    pub fn has(&self, list: ListId, signal: SignalId) -> bool
        ensures { IsTrue result ↔ HasSignal self.now list signal }
    {
        let mask = mask_at(self.column(signal.0 as usize / 64), list.0 as usize);
        has_bit(mask, signal.0 % 64)
    }

    /// The masks of all lists for the 64 signals of this number.
    pub fn column(&self, word: usize) -> &[u64]
        ensures { result.now ≡ column_of self.now word }
    {
        if word < self.columns.len() {
            &self.columns[word].masks
        } else {
            &[]
        }
    }
}

/// The graph in which the signals of a list flow to each list that names it.
fn graph_of(alloc: Global, lists: &[SignalList]) -> Result<Graph, AllocError>
    ensures { IfOk result (λ graph. (from : ℕ) (step : Step) →
        Leads graph.rows.items from step ↔ ListSteps lists.now from step) }
{
    let mut graph = Graph::new(alloc);
    add_lists(alloc, &mut graph, lists)?;
    Ok(graph)
}

fn add_lists(alloc: Global, graph: &mut Graph, lists: &[SignalList]) -> Result<(), AllocError>
    ensures { OnOk result (Adds (ListSteps lists.now) graph.old.rows.items graph.new.rows.items) }
{
    for (number, list) in lists.iter().enumerate() {
        add_entries(alloc, graph, number, &list.items)?;
    }
    Ok(())
}

/// Adds a step from each list among the entries of a list to it.
fn add_entries(
    alloc: Global,
    graph: &mut Graph,
    list: usize,
    entries: &[Item],
) -> Result<(), AllocError>
    ensures { OnOk result (Adds (EntrySteps list entries.now) graph.old.rows.items graph.new.rows.items) }
{
    for entry in entries {
        add_entry(alloc, graph, list, *entry)?;
    }
    Ok(())
}

fn add_entry(alloc: Global, graph: &mut Graph, list: usize, entry: Item) -> Result<(), AllocError>
    ensures { OnOk result (Adds (EntryStep list entry) graph.old.rows.items graph.new.rows.items) }
{
    match entry {
        Item::Signal(_) => Ok(()),
        Item::List(other) => graph.add(
            alloc,
            other.0 as usize,
            Step {
                to: list,
                only: None,
            },
        ),
    }
}

/// For each list what it names itself of the 64 signals of this number.
fn own_masks(alloc: Global, lists: &[SignalList], word: u32) -> Result<Vec<u64>, AllocError>
    ensures { IfOk result (λ masks. (list k : ℕ) → Has masks.items list k ↔ NamesIn lists.now word list k) }
{
    let mut masks = Vec::new(alloc);
    for list in lists {
        masks.push(own_mask(&list.items, word))?;
    }
    Ok(masks)
}

fn own_mask(entries: &[Item], word: u32) -> u64
    ensures { (k : ℕ) → Bit result k ↔ ForSome entries.now (λ j entry. IsSignalAt word k entry) }
{
    let mut mask = 0;
    for entry in entries {
        mask = with_entry(mask, *entry, word);
    }
    mask
}

fn with_entry(mask: u64, entry: Item, word: u32) -> u64
    ensures { (k : ℕ) → Bit result k ↔ (Bit mask k ⊎ IsSignalAt word k entry) }
{
    match entry {
        Item::Signal(signal) if signal.0 / 64 == word => with_bit(mask, signal.0 % 64),
        _ => mask,
    }
}
