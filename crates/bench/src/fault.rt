//! What ends a measurement early.

use crate::call::Call;
use std::alloc::AllocError;
use std::fmt;
use std::io::{self, ErrorKind};

/// What ends a measurement early.
#[derive(Clone, Copy)]
pub enum Fault {
    /// A call answered something else than it must.
    Wrong,
    /// There is no text, or it is refused, or its run is cut.
    Text,
    /// This call was refused, and another one before it, or the same.
    Refused(Call),
    /// There is no memory.
    Memory,
    /// The clock can't be read, or nothing can be written.
    Io,
}

impl Fault {
    /// The exit status that tells it.
    pub fn status(self) -> u8 {
        match self {
            Fault::Wrong | Fault::Text => 1,
            Fault::Refused(_) | Fault::Memory | Fault::Io => 3,
        }
    }
}

impl fmt::Display for Fault {
    fn fmt<W: fmt::Write>(&self, f: &mut fmt::Formatter<W>) -> fmt::Result {
        match self {
            Fault::Wrong => f.write_str("wrong"),
            Fault::Text => f.write_str("there is no such text, or it isn't taken to its end"),
            Fault::Refused(call) => write!(f, "out of memory, {call}"),
            Fault::Memory => f.write_str("out of memory"),
            Fault::Io => f.write_str("no clock, or no output"),
        }
    }
}

impl From<AllocError> for Fault {
    fn from(_error: AllocError) -> Fault {
        Fault::Memory
    }
}

impl From<io::Error> for Fault {
    fn from(error: io::Error) -> Fault {
        match error.kind() {
            ErrorKind::OutOfMemory => Fault::Memory,
            _ => Fault::Io,
        }
    }
}
