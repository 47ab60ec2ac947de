//! Whom signals from a source reach.
//!
//! Signals are looked at 64 at a time. So the cost is a few steps for each path of a channel, each name in a connect,
//! each process and each block, for each 64 signals, and at most 64 times as many.

ghost use Rattle.std.specs.Prelude.{◌↔◌, ℕ, IfOk, IsTrue};
ghost use Rattle.build_routes.specs.SignalLists.{AreSets};

use crate::graph::Node;
use crate::network::mask::{has_bit, mask_at};
use crate::network::{Graph, Network, SignalSets, Source};
use port_model::SignalId;
use sdl_system::ProcessId;
use std::alloc::{AllocError, Global};

/// Whom 64 signals from a source reach.
#[derive(Drop)]
pub(crate) struct Arrivals {
    masks: Vec<u64>,
}

impl Arrivals {
    ghost use Rattle.build_routes.specs.Arrivals.{ArrivesAt, IsGraph, ReachesEnv, ReachesProcess, Tells};
    ghost use Rattle.build_routes.specs.Mask.{Bit};
    ghost use Rattle.build_routes.specs.Rows.{rows_of};
    ghost use Rattle.build_routes.specs.Paths.{IsSource};

    /// Nobody yet.
    pub(crate) fn new(alloc: Global) -> Self {
        Arrivals {
            masks: Vec::new(alloc),
        }
    }

    /// Whom the 64 signals of this number reach from the source, by the steps of the graph.
    pub(crate) fn from_source(
        alloc: Global,
        network: &Network,
        sets: &SignalSets,
        graph: &Graph,
        source: Source,
        word: u32,
    ) -> Result<Arrivals, AllocError>
        requires is_source { IsSource network.now source }
        requires sets { AreSets network.now.lists.items network.now.signals sets.now }
        requires graph { IsGraph network.now source (rows_of graph.now) }
        ensures { IfOk result (Tells network.now source word) }
    {
        let mut start = Vec::new(alloc);
        start.push(u64::MAX)?;
        let column = sets.column(word as usize);
        let masks = graph.flow(alloc, column, start)?;
        Ok(Arrivals { masks })
    }

    /// Which of the 64 signals reach the process.
    pub(crate) fn at_process(&self, process: ProcessId) -> u64
        ensures { (place : ℕ) → Bit result place ↔ ArrivesAt self.now place process }
    {
        mask_at(&self.masks, Node::Process(process).number())
    }

    /// Whether a path leads the signal, one of the 64, to the process.
    pub(crate) fn has_process(&self, process: ProcessId, signal: SignalId) -> bool
        ensures { IsTrue result ↔ ReachesProcess self.now process signal }
    {
        has_bit(self.at_process(process), signal.0 % 64)
    }

    /// Whether a path leads the signal, one of the 64, to the environment of the system.
    pub(crate) fn has_env(&self, signal: SignalId) -> bool
        ensures { IsTrue result ↔ ReachesEnv self.now signal }
    {
        let mask = mask_at(&self.masks, Node::Env.number());
        has_bit(mask, signal.0 % 64)
    }
}
