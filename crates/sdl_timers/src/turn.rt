//! The order in which a slot gives out its fuses.

use crate::due::Due;

/// When it is a fuse's turn in its slot: in due order, and behind the fuses of the same due that were armed before it.
#[derive(Clone, Copy, PartialEq, Eq, PartialOrd, Ord)]
pub struct Turn {
    pub due: Due,
    /// How many fuses were armed in the slot before this one.
    pub number: u64,
}
