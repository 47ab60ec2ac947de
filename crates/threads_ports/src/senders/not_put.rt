//! Why a signal is not put.

use port_model::Item;

/// Why a signal is not put into the port of an instance. It comes back.
#[derive(Drop)]
pub enum NotPut {
    /// There is no sender into that port.
    Unknown(Item),
    /// There is one, and it was refused memory, or has put 2^61 entries.
    Memory(Item),
}
