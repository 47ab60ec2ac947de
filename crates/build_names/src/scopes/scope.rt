//! The scopes of a specification.

use sdl_system::{BlockId, ProcessId};

/// A scope: the system, or one of its blocks or processes.
#[derive(Clone, Copy, PartialEq, Eq)]
pub enum ScopeId {
    System,
    Block(BlockId),
    Process(ProcessId),
}

/// The scopes round a place in the text, beside the system.
#[derive(Clone, Copy, PartialEq, Eq)]
pub struct ScopePath {
    /// The process, in one.
    pub process: Option<ProcessId>,
    /// The block, in one.
    pub block: Option<BlockId>,
}
