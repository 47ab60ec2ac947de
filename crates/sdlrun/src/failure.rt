//! Why nothing can be told of a text, or not all of it.

use sdl_engine::TextFault;
use std::alloc::AllocError;
use std::io;

/// Why nothing can be told of a text, or not all of it.
#[derive(Drop)]
pub enum Failure {
    /// The file of this name can't be opened, and why.
    Unopened(String, io::Error),
    /// The file of this name can't be written, and why.
    Unwritten(String, io::Error),
    /// A picture of these instances is asked for, and the run has none of them.
    Nobody(String),
    /// Nobody reads the answer any more.
    PipeClosed,
    Text(TextFault),
}

impl From<AllocError> for Failure {
    fn from(_error: AllocError) -> Failure {
        Failure::Text(TextFault::Memory)
    }
}

impl From<TextFault> for Failure {
    fn from(fault: TextFault) -> Failure {
        Failure::Text(fault)
    }
}
