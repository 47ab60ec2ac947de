//! How many entries were put.

ghost use Rattle.std.specs.Prelude.{◌≡◌};

use std::marker::Model;

/// How many entries a sender has put; of an entry its place among those of its sender, from 1.
#[derive(Clone, Copy, PartialEq, Eq, PartialOrd, Ord, Hash)]
pub struct PutCount {
    puts: u64,
}

impl Model for PutCount {
    ghost use Rattle.std.specs.Prelude.{ℕ};

    ghost Value = { ℕ };

    ghost view = { λ count. count.puts };

    ghost inverse = { λ number. record { puts = number } };
}

impl PutCount {
    /// So many entries.
    pub fn new(puts: u64) -> Self
        ensures { result ≡ puts }
    {
        PutCount { puts }
    }

    /// How many they are.
    pub fn get(self) -> u64
        ensures { result ≡ self }
    {
        self.puts
    }
}
