//! Who sends what to whom.

use port_model::SignalId;

/// Who sends which signal to whom: the numbers of the two instances, and the signal's name. What is sent on one channel
/// is taken in the order in which it was sent.
#[derive(Clone, Copy, PartialEq, Eq, Hash)]
pub struct Channel {
    pub sender: u32,
    pub receiver: u32,
    pub signal: SignalId,
}
