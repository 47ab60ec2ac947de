//! Why senders can't be gathered.

/// Why senders can't be gathered at their ports.
#[derive(Clone, Copy, PartialEq, Eq)]
pub enum Fault {
    Memory,
    /// Signals of the port of this number, or a sender into it, were lost.
    Lost(u32),
}
