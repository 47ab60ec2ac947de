//! What is entered for an instance.

use port_model::Pid;
use sdl_system::ProcessId;

/// The entry of an instance: all that there is to know of it, from its create on.
#[derive(Clone, Copy, PartialEq, Eq)]
pub struct Entered {
    /// Its number, from 1.
    pub pid: u32,
    /// The process of which it is an instance.
    pub process: ProcessId,
    /// Who created it; null for those that are there at the start.
    pub parent: Pid,
}
