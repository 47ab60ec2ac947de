//! Who an instance is.

use port_model::Pid;
use sdl_system::ProcessId;

/// Who an instance is, from its creation to its end.
#[derive(Clone, Copy, PartialEq, Eq)]
pub struct Identity {
    pub process: ProcessId,
    /// Its own number, which `self` holds.
    pub pid: u32,
    /// The instance that created it, or null.
    pub parent: Pid,
}
