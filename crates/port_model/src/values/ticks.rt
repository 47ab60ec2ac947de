//! Times.

ghost use Rattle.std.specs.Prelude.{◌≡◌, max, min};

use std::marker::Model;

/// A time, in ticks since the run began.
#[derive(Clone, Copy, PartialEq, Eq, PartialOrd, Ord, Hash)]
pub struct Ticks {
    ticks: u64,
}

impl Model for Ticks {
    ghost use Rattle.std.specs.Prelude.{ℕ};

    ghost Value = { ℕ };

    ghost view = { λ time. time.ticks };

    ghost inverse = { λ number. record { ticks = number } };
}

impl Ticks {
    /// The time after so many ticks.
    pub fn new(ticks: u64) -> Self
        ensures { result ≡ ticks }
    {
        Ticks { ticks }
    }

    /// How many ticks it comes after the start.
    pub fn get(self) -> u64
        ensures { result ≡ self }
    {
        self.ticks
    }

    /// The later one of two times.
    pub fn later_of(one: Ticks, other: Ticks) -> Self
        ensures { result ≡ max one other }
    {
        Ticks::new(one.ticks.max(other.ticks))
    }

    /// The earlier one of two times.
    pub fn earlier_of(one: Ticks, other: Ticks) -> Self
        ensures { result ≡ min one other }
    {
        Ticks::new(one.ticks.min(other.ticks))
    }
}
