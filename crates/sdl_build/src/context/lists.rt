//! What signal lists stand for.

ghost use Rattle.std.specs.Prelude.{IfOk};
ghost use Rattle.sdl_build.specs.Lists.{AreMembers, AreSignalsOf};
ghost use Rattle.build_routes.specs.SignalLists.{AreSets};
ghost use Rattle.build_states.specs.Context.{listed_members};

use build_routes::{ListId, Network, SignalSets};
use port_model::SignalId;
use std::alloc::{AllocError, Global};

/// The signals that each of the first so many lists stands for.
pub fn members(
    alloc: Global,
    network: &Network,
    sets: &SignalSets,
    count: u32,
) -> Result<Vec<Vec<SignalId>>, AllocError>
    requires { AreSets network.now.lists.items network.now.signals sets.now }
    ensures { IfOk result (λ members. AreMembers network.now count (listed_members members.items)) }
{
    let mut members = Vec::new(alloc);
    for list in 0..count {
        members.push(signals_of(alloc, network, sets, ListId(list))?)?;
    }
    Ok(members)
}

/// The signals that a list stands for.
fn signals_of(
    alloc: Global,
    network: &Network,
    sets: &SignalSets,
    list: ListId,
) -> Result<Vec<SignalId>, AllocError>
    requires { AreSets network.now.lists.items network.now.signals sets.now }
    ensures { IfOk result (λ signals. AreSignalsOf network.now list signals.items) }
{
    let mut signals = Vec::new(alloc);
    for number in 0..network.signals {
        let signal = SignalId(number);
        if sets.has(list, signal) {
            signals.push(signal)?;
        }
    }
    Ok(signals)
}
