//! The numbers of senders.

ghost use Rattle.std.specs.Prelude.{◌≡◌};

use std::marker::Model;

/// The number of a sender among the senders of its port, from 1. A number 0 has no sender.
#[derive(Clone, Copy, PartialEq, Eq, PartialOrd, Ord, Hash)]
pub struct SenderNumber {
    number: u32,
}

impl Model for SenderNumber {
    ghost use Rattle.std.specs.Prelude.{ℕ};

    ghost Value = { ℕ };

    ghost view = { λ sender. sender.number };

    ghost inverse = { λ number. record { number = number } };
}

impl SenderNumber {
    /// The sender with this number.
    pub fn new(number: u32) -> Self
        ensures { result ≡ number }
    {
        SenderNumber { number }
    }

    /// Its number.
    pub fn get(self) -> u32
        ensures { result ≡ self }
    {
        self.number
    }
}
