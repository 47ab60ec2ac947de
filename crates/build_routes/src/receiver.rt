//! To which processes 64 signals go.

ghost use Rattle.std.specs.Prelude.{◌≡◌, ◌<◌, ℕ, length, IfOk};
ghost use Rattle.build_routes.specs.Entries.{IsListed, listed_at};
ghost use Rattle.build_routes.specs.Mask.{Bit};
ghost use Rattle.build_routes.specs.declared.network.joined.End.TheVariants as at;

use crate::arrivals::Arrivals;
use crate::graph::{is_implied, same_end};
use crate::network::mask::{has_bit, joined, mask_at};
use crate::network::{End, Network, Process, SignalSets, Source, counted};
use sdl_system::ProcessId;
use std::alloc::{AllocError, Global};

/// A process, and which of 64 signals go to it.
#[derive(Clone, Copy, PartialEq, Eq)]
pub(crate) struct Receiver {
    pub(crate) process: ProcessId,
    pub(crate) signals: u64,
}

/// The processes that the 64 signals of this number reach, and the source with what implied channels lead to it from
/// the others, so that these all share one list.
pub(crate) fn receivers_of(
    alloc: Global,
    network: &Network,
    sets: &SignalSets,
    arrivals: &Arrivals,
    source: Source,
    word: usize,
) -> Result<Vec<Receiver>, AllocError>
    ensures { IfOk result (λ receivers. (place : ℕ)
        → IsListed arrivals.now place source (length network.now.processes.items) (listed_at place receivers.items)) }
{
    let column = sets.column(word);
    let mut receivers = Vec::new(alloc);
    for (number, process) in network.processes.iter().enumerate() {
        let id = ProcessId(counted(number)?);
        let own = shared(network, column, source, id, *process);
        let signals = joined(arrivals.at_process(id), own);
        if signals != 0 {
            receivers.push(Receiver {
                process: id,
                signals,
            })?;
        }
    }
    Ok(receivers)
}

/// Gives the signals that implied channels lead to the process from others, if it is the source. `column` has the
/// masks of all lists.
fn shared(network: &Network, column: &[u64], source: Source, id: ProcessId, process: Process) -> u64
    ensures { (place : ℕ) → Bit result place → source.end ≡ at.Process id }
{
    if same_end(source.end, End::Process(id)) && is_implied(network, process.scope) {
        mask_at(column, process.named.0 as usize)
    } else {
        0
    }
}

/// The processes to which the signal at this place goes.
pub(crate) fn listed(
    alloc: Global,
    receivers: &[Receiver],
    place: u32,
) -> Result<Vec<ProcessId>, AllocError>
    requires { place < 64 }
    ensures { IfOk result (λ list. list.items ≡ listed_at place receivers.now) }
{
    let mut list = Vec::new(alloc);
    for receiver in receivers {
        if has_bit(receiver.signals, place) {
            list.push(receiver.process)?;
        }
    }
    Ok(list)
}
