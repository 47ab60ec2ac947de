//! Where paths lead 64 signals from one source.

ghost use Rattle.std.specs.Prelude.{◌≡◌, ◌<◌, ◌%◌, ◌↔◌, IsTrue, Some, slice_get, vec_len};
ghost use Rattle.sdl_system.specs.declared.id.ProcessId.{ProcessId};
ghost use Rattle.build_routes.specs.Arrivals.{ReachesEnv, ReachesProcess};
ghost use Rattle.build_routes.specs.declared.network.joined.End.TheVariants as at;

use crate::arrivals::Arrivals;
use crate::network::{End, Source};
use port_model::SignalId;
use sdl_system::{Reach, ReceiversId};
use std::alloc::Global;

/// Whom 64 signals reach from a source, and for each of them the number of the list of its receivers.
pub(crate) struct Word {
    pub(crate) arrivals: Arrivals,
    pub(crate) numbers: Vec<ReceiversId>,
}

/// Written out, so that it is proved here, and not anew in each crate that drops one.
impl Drop for Word {
    fn drop(self) {
        let Word {
            arrivals: _,
            numbers: _,
        } = self;
    }
}

impl Word {
    /// Nobody yet.
    pub(crate) fn new(alloc: Global) -> Self {
        Word {
            arrivals: Arrivals::new(alloc),
            numbers: Vec::new(alloc),
        }
    }

    /// Where paths lead the signal, one of the 64.
    pub(crate) fn entry(&self, source: Source, signal: SignalId) -> Reach
        requires { signal.0 % 64 < vec_len self.now.numbers }
        ensures receivers { slice_get self.now.numbers.items (signal.0 % 64) ≡ Some result.receivers }
        ensures itself { (p : ProcessId) → source.end ≡ at.Process p → IsTrue result.itself
            ↔ ReachesProcess self.now.arrivals p signal }
        ensures env { IsTrue result.env ↔ ReachesEnv self.now.arrivals signal }
    {
        let receivers = self.numbers[signal.0 as usize % 64];
        let itself = reaches_itself(&self.arrivals, source, signal);
        let env = self.arrivals.has_env(signal);
        Reach {
            receivers,
            itself,
            env,
        }
    }
}

/// Whether the signal reaches the process that it comes from.
fn reaches_itself(arrivals: &Arrivals, source: Source, signal: SignalId) -> bool
    ensures { (p : ProcessId) → source.end ≡ at.Process p → IsTrue result ↔ ReachesProcess arrivals.now p signal }
{
    match source.end {
        End::Process(process) => arrivals.has_process(process, signal),
        _ => false,
    }
}
