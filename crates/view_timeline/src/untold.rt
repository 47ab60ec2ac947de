//! Why a report has no timeline in an order.

use crate::moves::Timeline;
use std::alloc::AllocError;

/// Why a report has no timeline in an order.
#[derive(Drop)]
pub enum Untold {
    /// The instance of this number can't go on: what it takes wasn't sent to it by then, or nothing created it, or an
    /// instance to which it sends. With the timeline as far as it goes.
    Stuck { told: Timeline, number: u32 },
    /// No memory, or more than 2^32 events.
    Memory,
}

impl From<AllocError> for Untold {
    ghost use Rattle.std.specs.Prelude.{◌≡◌};
    ghost use Rattle.view_timeline.specs.declared.untold.Untold.TheVariants.{Memory};

    ghost from_gives = { λ _ untold. untold ≡ Memory };

    fn from(_error: AllocError) -> Untold {
        Untold::Memory
    }
}
