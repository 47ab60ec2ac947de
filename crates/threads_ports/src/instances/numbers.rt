//! Sets of numbers that need no memory.

ghost use Rattle.std.specs.Int.{bit_at};
ghost use Rattle.std.specs.Prelude.{◌≡◌, ℕ, ◌+◌, ◌<◌, false, true, [], length, slice_get};
ghost use Rattle.threads_ports.specs.NumberSets.{is_in, with_number, without};

use std::marker::Model;

const WORDS: usize = 16;

const BITS: u32 = 64;

/// A set of numbers below 1,024, kept as a bit for each.
#[derive(Drop)]
pub struct Numbers {
    words: [u64; WORDS],
    count: u32,
}

impl Model for Numbers {
    ghost use Rattle.std.specs.Prelude.{◌≡◌, ℕ, List, length};
    ghost use Rattle.threads_ports.specs.Words.{members};

    ghost Value = { List ℕ };

    ghost view = { λ numbers. members numbers.words };

    ghost invariant = { λ numbers. numbers.count ≡ length (members numbers.words) };
}

impl Numbers {
    /// No number.
    pub fn new() -> Self
        ensures { result ≡ [] }
    {
        Numbers {
            words: [0; WORDS],
            count: 0,
        }
    }

    /// How many there are.
    pub fn len(&self) -> u32
        ensures { result ≡ length self.now }
    {
        self.count
    }

    /// Whether the number is one of them.
    pub fn contains(&self, number: u32) -> bool
        ensures members { result ≡ is_in number self.now }
        ensures below { result ≡ true → number < 1024 }
    {
        let Some(word) = self.words.get((number / BITS) as usize) else {
            return false;
        };
        (*word >> (number % BITS)) & 1 == 1
    }

    /// Adds a number that isn't one of them.
    pub fn insert(&mut self, number: u32)
        requires { (number < 1024) × (is_in number self.old ≡ false) }
        ensures numbers { self.new ≡ with_number number self.old }
        ensures count { length self.new ≡ length self.old + 1 }
    {
        self.words[(number / BITS) as usize] |= 1 << (number % BITS);
        self.count += 1;
    }

    /// Takes out a number that is one of them.
    pub fn remove(&mut self, number: u32)
        requires { (number < 1024) × (is_in number self.old ≡ true) }
        ensures numbers { self.new ≡ without number self.old }
        ensures count { length self.new + 1 ≡ length self.old }
    {
        self.words[(number / BITS) as usize] &= !(1 << (number % BITS));
        self.count -= 1;
    }

    /// The least of them.
    pub fn least(&self) -> Option<u32>
        ensures { result ≡ slice_get self.now 0 }
    {
        let words = &self.words;
        for (place, word) in words.iter().enumerate() {
            if *word != 0 {
                return Some(place as u32 * BITS + lowest(*word));
            }
        }
        None
    }
}

/// The place of the lowest bit that is set.
fn lowest(word: u64) -> u32
    requires { 0 < word }
    ensures { (result < 64) × (bit_at word result ≡ 1) × ((k : ℕ) → k < result → bit_at word k ≡ 0) }
{
    word.trailing_zeros()
}
