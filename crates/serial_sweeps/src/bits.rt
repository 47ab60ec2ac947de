//! One bit of a word.

ghost use Rattle.std.specs.Int.{bit_at};
ghost use Rattle.std.specs.Prelude.{◌≡◌, ◌≢◌, ◌<◌, ◌≤◌, ℕ};

/// The word with this bit.
pub fn with_bit(word: u64, bit: u32) -> u64
    requires { bit < 64 }
    ensures set { bit_at result bit ≡ 1 }
    ensures others { (i : ℕ) → i ≢ bit → bit_at result i ≡ bit_at word i }
{
    word | (1 << bit)
}

/// The word without this bit.
pub fn without_bit(word: u64, bit: u32) -> u64
    requires { bit < 64 }
    ensures clear { bit_at result bit ≡ 0 }
    ensures others { (i : ℕ) → i < 64 → i ≢ bit → bit_at result i ≡ bit_at word i }
{
    word & !(1 << bit)
}

/// The bits of the word from this one on.
pub fn bits_from(word: u64, bit: u32) -> u64
    requires { bit < 64 }
    ensures below { (i : ℕ) → i < bit → bit_at result i ≡ 0 }
    ensures kept { (i : ℕ) → bit ≤ i → i < 64 → bit_at result i ≡ bit_at word i }
{
    word & (u64::MAX << bit)
}

/// The lowest bit of a word that has one.
pub fn lowest(word: u64) -> u32
    requires { 0 < word }
    ensures within { result < 64 }
    ensures set { bit_at word result ≡ 1 }
    ensures least { (i : ℕ) → i < result → bit_at word i ≡ 0 }
{
    word.trailing_zeros()
}
