//! Signals on their way, counted.

ghost use Rattle.std.specs.Prelude.{◌≡◌, ◌++◌, OnOk, map, option_to_list};
ghost use Rattle.std.specs.List.{flat_map};
ghost use Rattle.settle_checks.specs.Crossings.{crossing_in, crossing_out};

use crate::summing::flows::Flow;
use port_model::{Pid, SignalId};
use std::alloc::AllocError;

/// A signal on its way: who sent it, to which instance, its name, and when it was sent or taken.
#[derive(Clone, Copy, PartialEq, Eq, PartialOrd, Ord)]
pub struct Way {
    pub to: u32,
    pub from: Pid,
    pub name: SignalId,
    pub at: u64,
}

/// So many times the same.
#[derive(Clone, Copy)]
pub struct Crossing {
    pub way: Way,
    pub count: u64,
}

/// Adds what this sender sends to instances.
#[tactic(auto, using(crate::proofs::CrossingLemmas::none_added, crate::proofs::CrossingLemmas::out_some, crate::proofs::CrossingLemmas::out_none, crate::proofs::CrossingLemmas::out_all))]
pub fn add_sent(all: &mut Vec<Crossing>, from: Pid, flows: &[Flow]) -> Result<(), AllocError>
    ensures { OnOk result (all.new.items ≡ all.old.items ++ flat_map (crossing_out from) flows.now) }
{
    for flow in flows {
        if let Some(one) = way_out(from, *flow) {
            all.push(one)?;
        }
    }
    Ok(())
}

/// What this sender sends to an instance, if the flow leads to one.
fn way_out(from: Pid, flow: Flow) -> Option<Crossing>
    ensures { option_to_list result ≡ crossing_out from flow }
{
    match flow.pass.peer {
        Pid::Of(to) => {
            let way = Way {
                to,
                from,
                name: flow.pass.name,
                at: flow.pass.at,
            };
            Some(Crossing {
                way,
                count: flow.count,
            })
        }
        _ => None,
    }
}

/// Adds what the instance of this number takes from others.
#[tactic(auto, using(crate::proofs::CrossingLemmas::none_added, crate::proofs::CrossingLemmas::in_more, crate::proofs::CrossingLemmas::in_all))]
pub fn add_taken(all: &mut Vec<Crossing>, to: u32, flows: &[Flow]) -> Result<(), AllocError>
    ensures { OnOk result (all.new.items ≡ all.old.items ++ map (crossing_in to) flows.now) }
{
    for flow in flows {
        let way = Way {
            to,
            from: flow.pass.peer,
            name: flow.pass.name,
            at: flow.pass.at,
        };
        all.push(Crossing {
            way,
            count: flow.count,
        })?;
    }
    Ok(())
}
