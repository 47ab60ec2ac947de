//! As what a signal of the environment comes to an instance.

use port_model::SignalId;

/// The number of an instance, and the name under which a signal of the environment comes to it. What comes so is taken
/// in the order in which it comes.
#[derive(Clone, Copy, PartialEq, Eq, Hash)]
pub struct Arrival {
    pub number: u32,
    pub signal: SignalId,
}
