//! Masks of 64 signals each.

ghost use Rattle.std.specs.Prelude.{◌≡◌, ℕ, ◌⊎◌, ◌<◌, ◌^◌, ◌↔◌, bit_or, get_or, IsTrue};
ghost use Rattle.build_routes.specs.Mask.{Bit};

/// Whether the mask has the signal at this place.
pub fn has_bit(mask: u64, place: u32) -> bool
    requires { place < 64 }
    ensures { IsTrue result ↔ Bit mask place }
{
    (mask >> place) & 1 == 1
}

/// The mask with the signal at this place too.
pub(crate) fn with_bit(mask: u64, place: u32) -> u64
    requires { place < 64 }
    ensures { (k : ℕ) → Bit result k ↔ (Bit mask k ⊎ (place ≡ k)) }
{
    mask | 1 << place
}

/// The signals of both masks.
pub fn joined(left: u64, right: u64) -> u64
    ensures value { result ≡ bit_or left right }
    ensures fits { result < 2 ^ 64 }
{
    left | right
}

/// The mask of a number; past the end of the masks one without a signal.
pub fn mask_at(masks: &[u64], number: usize) -> u64
    ensures { result ≡ get_or masks.now number 0 }
{
    match masks.get(number) {
        Some(mask) => *mask,
        None => 0,
    }
}
