//! The refusal of a call for lack of memory.

ghost use Rattle.input_port.specs.QueueWords.{ComesBack};

use port_model::{PortError, Refused};

/// The refusal of a call for lack of memory, with the value that it was given.
pub fn refused<T>(value: T) -> Refused<T>
    ensures { ComesBack result value }
{
    Refused {
        error: PortError::Memory,
        value,
    }
}
