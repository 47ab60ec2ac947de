//! How a table of numbers is made.

ghost use Rattle.std.specs.Prelude.{◌≡◌, [], IfOk};

use crate::instances::seat::MOST_SPLITS;
use crate::instances::{Seat, Table, steps};
use std::alloc::{AllocError, Global};

/// A table from which no number is drawn, and its first seat. Refused for lack of memory.
pub fn table(alloc: Global) -> Result<(Table, Seat), AllocError>
    ensures { IfOk result (λ made. made.1 ≡ record { table = made.0.id; parts = 64; left = 63; drawn = []; seen = 0 }) }
{
    let (word, place) = steps::open(alloc)?;
    Ok((Table::new(word), Seat::new(place, MOST_SPLITS, 0)))
}
