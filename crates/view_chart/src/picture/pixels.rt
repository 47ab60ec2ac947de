//! Lengths and places in a picture.

ghost use Rattle.std.specs.Prelude.{◌≡◌, ◌+◌, ◌-◌, ◌*◌, ◌/◌, ◌^◌, max, min};

/// A length, or a place in a picture: to the right of its left edge, or below its upper one. Sums that are too large
/// stay at the greatest number.
#[derive(Clone, Copy)]
pub struct Pixels(pub u32);

impl Pixels {
    /// So much further, or longer.
    pub fn plus(self, more: u32) -> Pixels
        ensures { result.0 ≡ min (self.0 + more) (2 ^ 32 - 1) }
    {
        Pixels(self.0.saturating_add(more))
    }

    /// So much nearer, or shorter; never below 0.
    pub fn minus(self, less: u32) -> Pixels
        ensures { result.0 ≡ self.0 - less }
    {
        Pixels(self.0.saturating_sub(less))
    }

    /// So many lengths.
    pub fn times(self, count: u32) -> Pixels
        ensures { result.0 ≡ min (self.0 * count) (2 ^ 32 - 1) }
    {
        Pixels(self.0.saturating_mul(count))
    }

    /// Half of the way from here to there.
    pub fn midway(self, other: Pixels) -> Pixels
        ensures { result.0 ≡ self.0 / 2 + other.0 / 2 }
    {
        Pixels(self.0 / 2 + other.0 / 2)
    }

    /// The longer of two lengths.
    pub fn or_more(self, other: Pixels) -> Pixels
        ensures { result.0 ≡ max self.0 other.0 }
    {
        Pixels(self.0.max(other.0))
    }

    /// The shorter of two lengths.
    pub fn or_less(self, other: Pixels) -> Pixels
        ensures { result.0 ≡ min self.0 other.0 }
    {
        Pixels(self.0.min(other.0))
    }
}

/// How wide a text is at a size of 12 pixels, in a font without serifs: at least as wide as in the usual ones.
pub fn width_of(text: &str) -> Pixels {
    let mut width = Pixels(0);
    for byte in text.as_bytes() {
        width = width.plus(width_of_byte(*byte));
    }
    width
}

fn width_of_byte(byte: u8) -> u32 {
    match byte {
        b'i' | b'j' | b'l' | b'.' | b',' | b':' | b';' | b'\'' => 4,
        b'f' | b'r' | b't' | b'I' | b' ' | b'(' | b')' | b'-' => 5,
        b'm' | b'M' | b'w' | b'W' | b'#' => 11,
        b'A'..=b'Z' => 9,
        _ => 8,
    }
}

/// How wide a number is.
pub fn width_of_number(number: u64) -> Pixels {
    let mut digits = 1u32;
    let mut rest = number / 10;
    for _digit in 0..20 {
        if rest > 0 {
            digits = digits.saturating_add(1);
            rest /= 10;
        }
    }
    Pixels(8).times(digits)
}
