//! Who may have something to do.

ghost use Rattle.std.specs.Prelude.{◌≡◌, ◌≢◌, ◌⊎◌, ◌↔◌, ◌+◌, ◌*◌, ◌^◌, ◌<◌, ◌≤◌, ℕ, [], Contains, IfNone, IfSome, IsTrue, OnErr, OnOk, length};
ghost use Rattle.serial_sweeps.specs.Marks.{is_marked};

use crate::bits::{bits_from, lowest, with_bit, without_bit};
use std::alloc::{AllocError, Global};
use std::marker::Model;

/// The numbers of the instances that may have something to do; all others rest. Each step looks for the next number, so
/// each has a bit, and whole words are passed over at once.
#[derive(Drop)]
pub struct ReadySet {
    words: Vec<u64>,
}

impl Model for ReadySet {
    ghost use Rattle.std.specs.Prelude.{◌*◌, ◌^◌, ◌≤◌, ℕ, List, length};
    ghost use Rattle.serial_sweeps.specs.Marks.{numbers_in};

    ghost Value = { List ℕ };

    ghost view = { λ a. numbers_in a.words.items };

    ghost invariant = { λ a. 64 * length a.words.items ≤ 2 ^ 32 };
}

impl ReadySet {
    /// Nobody. Takes no memory.
    pub fn new(alloc: Global) -> Self
        ensures { result ≡ [] }
    {
        ReadySet {
            words: Vec::new(alloc),
        }
    }

    /// The instance of this number may have something to do. For lack of memory nothing changes.
    pub fn wake(&mut self, number: u32) -> Result<(), AllocError>
        ensures ok { OnOk result ((n : ℕ) → Contains self.new n ↔ ((n ≡ number) ⊎ Contains self.old n)) }
        ensures err { OnErr result (self.new ≡ self.old) }
    {
        let place = (number / u64::BITS) as usize;
        if self.words.len() <= place {
            self.words.resize(place + 1, 0)?;
        }
        self.words[place] = with_bit(self.words[place], number % u64::BITS);
        Ok(())
    }

    /// The instance of this number has nothing to do.
    pub fn rest(&mut self, number: u32)
        ensures left { (n : ℕ) → Contains self.new n ↔ (Contains self.old n × (n ≢ number)) }
        ensures fewer { Contains self.old number → length self.new < length self.old }
    {
        let place = (number / u64::BITS) as usize;
        if place < self.words.len() {
            self.words[place] = without_bit(self.words[place], number % u64::BITS);
        }
    }

    /// The least number behind this one of an instance that may have something to do.
    pub fn next_after(&self, number: u32) -> Option<u32>
        ensures next { IfSome result (λ next. Contains self.now next × (number < next)) }
        ensures least { IfSome result (λ next. (n : ℕ) → Contains self.now n → number < n → next ≤ n) }
        ensures none { IfNone result ((n : ℕ) → Contains self.now n → n ≤ number) }
    {
        let words = &self.words;
        let from = number.checked_add(1)?;
        let place = (from / u64::BITS) as usize;
        if place >= words.len() {
            return None;
        }
        let word = bits_from(words[place], from % u64::BITS);
        if word != 0 {
            return Some(place as u32 * u64::BITS + lowest(word));
        }
        first_from(words, place + 1)
    }
}

/// The least number in the words from this place on.
fn first_from(words: &[u64], from: usize) -> Option<u32>
    requires { 64 * length words.now ≤ 2 ^ 32 }
    ensures next { IfSome result (λ next. IsTrue (is_marked words.now next) × (64 * from ≤ next)) }
    ensures least { IfSome result (λ next. (n : ℕ) → IsTrue (is_marked words.now n) → 64 * from ≤ n → next ≤ n) }
    ensures none { IfNone result ((n : ℕ) → IsTrue (is_marked words.now n) → n < 64 * from) }
{
    for place in from..words.len() {
        let word = words[place];
        if word != 0 {
            return Some(place as u32 * u64::BITS + lowest(word));
        }
    }
    None
}
