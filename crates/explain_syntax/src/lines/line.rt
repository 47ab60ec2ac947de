//! The line around a byte of a text.

ghost use Rattle.std.specs.Prelude.{◌≡◌, ◌≢◌, ℕ, ◌-◌, ◌<◌, ◌≤◌, length, slice_index};

/// Where the line begins in which the byte at an offset lies.
pub fn line_start(text: &[u8], offset: usize) -> usize
    requires { offset ≤ length text.now }
    ensures before { result ≤ offset }
    ensures one { (k : ℕ) → result ≤ k → k < offset → slice_index text.now k ≢ 10 }
    ensures begins { 0 < result → slice_index text.now (result - 1) ≡ 10 }
{
    let mut start = 0;
    for at in 0..offset {
        if text[at] == b'\n' {
            start = at + 1;
        }
    }
    start
}

/// Where the line ends in which the byte at an offset lies: at its LF, or at the end of the text.
pub fn line_end(text: &[u8], offset: usize) -> usize
    requires { offset ≤ length text.now }
    ensures behind { offset ≤ result }
    ensures within { result ≤ length text.now }
    ensures one { (k : ℕ) → offset ≤ k → k < result → slice_index text.now k ≢ 10 }
    ensures ends { result < length text.now → slice_index text.now result ≡ 10 }
{
    for at in offset..text.len() {
        if text[at] == b'\n' {
            return at;
        }
    }
    text.len()
}
