//! What a take gives.

use crate::got::Got;

/// The answer of a take.
#[derive(PartialEq, Eq, Drop)]
pub enum Taken {
    /// Taken by an input or a priority input.
    Consumed(Got),
    /// Taken by no input, and lost.
    Discarded(Got),
    /// All that waits is saved, or nothing waits.
    Nothing,
}
