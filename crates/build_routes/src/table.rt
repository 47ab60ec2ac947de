//! The table of routes: for each source and each signal whom it reaches.

ghost use Rattle.std.specs.Prelude.{◌≢◌, ◌/◌, ◌%◌, length, map, IfOk};
ghost use Rattle.build_routes.specs.Rows.{rows_of};
ghost use Rattle.build_routes.specs.Arrivals.{IsGraph};
ghost use Rattle.build_routes.specs.Entries.{AreKnown, AreRows, IsRow, Keeps, WordTells};
ghost use Rattle.build_routes.specs.Paths.{IsSource};
ghost use Rattle.build_routes.specs.Reached.{AreFlags};
ghost use Rattle.build_routes.specs.SignalLists.{AreSets};
ghost use Rattle.build_routes.specs.Table.{AreRoutes};

use crate::arrivals::Arrivals;
use crate::graph::graph_from;
use crate::known::{Known, numbers_of};
use crate::lists::Lists;
use crate::named::named_flags;
use crate::network::{End, Graph, Network, Scope, SignalSets, Source, counted};
use crate::receiver::receivers_of;
use crate::word::Word;
use port_model::SignalId;
use sdl_system::{ProcessId, Reach, Routes};
use std::alloc::{AllocError, Global};

/// The routes of a network: for the environment and each process, and for each signal, the processes to which paths
/// lead the signal, and whether one leads to the environment. `sets` are the sets of the network's lists.
///
/// The cost is that of the flow of 64 signals at a time from each source, a step for each source and signal, and, where
/// a source has other receivers than the one before it, a step for each of them and each signal.
pub fn routes_of(alloc: Global, network: &Network, sets: &SignalSets) -> Result<Routes, AllocError>
    requires { AreSets network.now.lists.items network.now.signals sets.now }
    ensures { IfOk result (AreRoutes network.now) }
{
    let named = named_flags(alloc, network)?;
    let mut lists = Lists::new(alloc);
    let mut known = Vec::new(alloc);
    let outside = Source {
        end: End::Env,
        scope: Scope::System,
    };
    let env = row_from(
        alloc, network, sets, &named, outside, &mut known, &mut lists,
    )?;
    let processes = process_rows(alloc, network, sets, &named, &mut known, &mut lists)?;
    let lists = lists.into_vec(alloc)?;
    Ok(Routes {
        lists,
        env,
        processes,
    })
}

/// The rows of all processes.
fn process_rows(
    alloc: Global,
    network: &Network,
    sets: &SignalSets,
    named: &[bool],
    known: &mut Vec<Known>,
    lists: &mut Lists,
) -> Result<Vec<Vec<Reach>>, AllocError>
    requires flags { AreFlags network.now named.now }
    requires sets { AreSets network.now.lists.items network.now.signals sets.now }
    requires known { AreKnown lists.old known.old.items }
    ensures kept { Keeps lists.old lists.new }
    ensures known { AreKnown lists.new known.new.items }
    ensures rows { IfOk result (λ rows.
        AreRows network.now lists.new (length network.now.processes.items) (map (λ row. row.items) rows.items)) }
{
    let mut rows = Vec::new(alloc);
    for (number, process) in network.processes.iter().enumerate() {
        let source = Source {
            end: End::Process(ProcessId(counted(number)?)),
            scope: process.scope,
        };
        rows.push(row_from(alloc, network, sets, named, source, known, lists)?)?;
    }
    Ok(rows)
}

/// Where paths lead each signal from the source.
fn row_from(
    alloc: Global,
    network: &Network,
    sets: &SignalSets,
    named: &[bool],
    source: Source,
    known: &mut Vec<Known>,
    lists: &mut Lists,
) -> Result<Vec<Reach>, AllocError>
    requires flags { AreFlags network.now named.now }
    requires is_source { IsSource network.now source }
    requires sets { AreSets network.now.lists.items network.now.signals sets.now }
    requires known { AreKnown lists.old known.old.items }
    ensures kept { Keeps lists.old lists.new }
    ensures known { AreKnown lists.new known.new.items }
    ensures row { IfOk result (λ row. IsRow network.now source lists.new network.now.signals row.items) }
{
    let graph = graph_from(alloc, network, named, source)?;
    let mut row = Vec::new(alloc);
    let mut word = Word::new(alloc);
    for number in 0..network.signals {
        word = word_at(
            alloc, network, sets, &graph, source, number, known, lists, word,
        )?;
        row.push(word.entry(source, SignalId(number)))?;
    }
    Ok(row)
}

/// Where paths lead the 64 signals among which the signal of this number is. What is known of the signal before it is
/// passed on.
fn word_at(
    alloc: Global,
    network: &Network,
    sets: &SignalSets,
    graph: &Graph,
    source: Source,
    number: u32,
    known: &mut Vec<Known>,
    lists: &mut Lists,
    before: Word,
) -> Result<Word, AllocError>
    requires is_source { IsSource network.now source }
    requires sets { AreSets network.now.lists.items network.now.signals sets.now }
    requires graph { IsGraph network.now source (rows_of graph.now) }
    requires known { AreKnown lists.old known.old.items }
    requires before { number % 64 ≢ 0 → WordTells network.now source (number / 64) lists.old before }
    ensures kept { Keeps lists.old lists.new }
    ensures known { AreKnown lists.new known.new.items }
    ensures word { IfOk result (WordTells network.now source (number / 64) lists.new) }
{
    if number % 64 != 0 {
        return Ok(before);
    }
    word_from(
        alloc,
        network,
        sets,
        graph,
        source,
        number / 64,
        known,
        lists,
    )
}

/// Where paths lead the 64 signals of this number from the source.
fn word_from(
    alloc: Global,
    network: &Network,
    sets: &SignalSets,
    graph: &Graph,
    source: Source,
    number: u32,
    known: &mut Vec<Known>,
    lists: &mut Lists,
) -> Result<Word, AllocError>
    requires is_source { IsSource network.now source }
    requires sets { AreSets network.now.lists.items network.now.signals sets.now }
    requires graph { IsGraph network.now source (rows_of graph.now) }
    requires known { AreKnown lists.old known.old.items }
    ensures kept { Keeps lists.old lists.new }
    ensures known { AreKnown lists.new known.new.items }
    ensures word { IfOk result (WordTells network.now source number lists.new) }
{
    let arrivals = Arrivals::from_source(alloc, network, sets, graph, source, number)?;
    let word = number as usize;
    let receivers = receivers_of(alloc, network, sets, &arrivals, source, word)?;
    let numbers = numbers_of(alloc, word, receivers, known, lists)?;
    Ok(Word { arrivals, numbers })
}
