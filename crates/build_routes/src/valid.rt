//! Valid input sets (Z.101: valid input signal set).

ghost use Rattle.std.specs.Prelude.{◌≡◌, ◌<◌, ◌↔◌, ◌⊎◌, true, length, IfOk, IsTrue};
ghost use Rattle.std.specs.List.{Contains};
ghost use Rattle.port_model.specs.declared.values.item.SignalId.{SignalId};
ghost use Rattle.sdl_system.specs.Signal.{is_member};
ghost use Rattle.build_routes.specs.Each.{ForSome};
ghost use Rattle.build_routes.specs.SignalLists.{AreSets, HasSignal};
ghost use Rattle.build_routes.specs.Valid.{AreValid, IsHeard, IsHeardFrom, IsValid};
ghost use Rattle.build_routes.specs.declared.network.list.ListId.{ListId};

use crate::graph::{same_end, same_scope};
use crate::network::{ChannelPath, End, ListId, Network, Process, SignalSets, counted};
use port_model::SignalId;
use sdl_system::{ProcessId, SignalSet};
use std::alloc::{AllocError, Global};

/// The valid input set of each process, by its number: the signals that channels of its scope carry to it, those that
/// it names, and its timers. Implied channels carry to it only what it names. `sets` are the sets of the network's
/// lists.
pub fn valid_sets(
    alloc: Global,
    network: &Network,
    sets: &SignalSets,
) -> Result<Vec<SignalSet>, AllocError>
    requires { AreSets network.now.lists.items network.now.signals sets.now }
    ensures { IfOk result (λ valid. AreValid network.now (length network.now.processes.items) valid.items) }
{
    let mut valid = Vec::new(alloc);
    for (number, process) in network.processes.iter().enumerate() {
        let id = ProcessId(counted(number)?);
        let set = valid_set(alloc, network, sets, id, *process)?;
        valid.push(set)?;
    }
    Ok(valid)
}

fn valid_set(
    alloc: Global,
    network: &Network,
    sets: &SignalSets,
    id: ProcessId,
    process: Process,
) -> Result<SignalSet, AllocError>
    requires { AreSets network.now.lists.items network.now.signals sets.now }
    ensures places { IfOk result (λ set. length set ≡ network.now.signals) }
    ensures members { IfOk result (λ set. (signal : SignalId) → signal.0 < network.now.signals
        → (is_member set signal ≡ true) ↔ IsValid network.now id process signal) }
{
    let lists = lists_to(alloc, &network.paths, id, process)?;
    let mut members = Vec::new(alloc);
    for number in 0..network.signals {
        members.push(is_in_some(sets, &lists, SignalId(number)))?;
    }
    Ok(SignalSet::new(members))
}

/// The lists of what comes to the process.
fn lists_to(
    alloc: Global,
    paths: &[ChannelPath],
    id: ProcessId,
    process: Process,
) -> Result<Vec<ListId>, AllocError>
    ensures { IfOk result (λ lists. (list : ListId) → Contains lists.items list
        ↔ ((list ≡ process.named) ⊎ ((list ≡ process.timers) ⊎ IsHeardFrom id process paths.now list))) }
{
    let mut lists = Vec::new(alloc);
    lists.push(process.named)?;
    lists.push(process.timers)?;
    for path in paths {
        if is_heard(id, process, *path) {
            lists.push(path.signals)?;
        }
    }
    Ok(lists)
}

/// Whether the path is one of the process's scope that leads to it.
fn is_heard(id: ProcessId, process: Process, path: ChannelPath) -> bool
    ensures { IsTrue result ↔ IsHeard id process path }
{
    same_scope(path.scope, process.scope) && same_end(path.to, End::Process(id))
}

fn is_in_some(sets: &SignalSets, lists: &[ListId], signal: SignalId) -> bool
    ensures { IsTrue result ↔ ForSome lists.now (λ n list. HasSignal sets.now list signal) }
{
    for list in lists {
        if sets.has(*list, signal) {
            return true;
        }
    }
    false
}
