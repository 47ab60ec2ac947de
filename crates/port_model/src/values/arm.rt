//! The numbers of sets.

ghost use Rattle.std.specs.Prelude.{◌≡◌};

use std::marker::Model;

/// The number of a set of a timer among the sets of its port, from 1.
#[derive(Clone, Copy, PartialEq, Eq, PartialOrd, Ord, Hash)]
pub struct Arm {
    number: u64,
}

impl Model for Arm {
    ghost use Rattle.std.specs.Prelude.{ℕ};

    ghost Value = { ℕ };

    ghost view = { λ arm. arm.number };

    ghost inverse = { λ number. record { number = number } };
}

impl Arm {
    /// The set with this number.
    pub fn new(number: u64) -> Self
        ensures { result ≡ number }
    {
        Arm { number }
    }

    /// Its number.
    pub fn get(self) -> u64
        ensures { result ≡ self }
    {
        self.number
    }
}
