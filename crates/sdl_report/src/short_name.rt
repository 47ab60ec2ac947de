//! Names that are copied with a fixed length.

ghost use Rattle.std.specs.Prelude.{◌≡◌, ◌+◌, ◌≤◌, ◌++◌, length, take};
ghost use Rattle.sdl_report.specs.ShortName.{short};

use std::marker::Model;

/// So many bytes a short name has at most.
pub const WIDTH: usize = 32;

/// A name of up to 32 bytes. It is copied with what fills it up to that width, which takes two moves and no call.
#[derive(Drop)]
pub struct ShortName {
    bytes: [u8; 32],
    len: usize,
}

impl Model for ShortName {
    ghost use Rattle.std.specs.Prelude.{◌≤◌, ℕ, List, take};

    ghost Value = { List ℕ };

    ghost view = { λ name. take name.len name.bytes };

    ghost invariant = { λ name. name.len ≤ 32 };
}

impl ShortName {
    /// The name, if it is short.
    pub fn of(name: &str) -> Option<ShortName>
        ensures { result ≡ short name.now }
    {
        let len = name.len();
        if len > WIDTH {
            return None;
        }
        let mut bytes = [0; WIDTH];
        bytes[..len].copy_from_slice(name.as_bytes());
        Some(ShortName { bytes, len })
    }
}

/// Puts a name after the first `end` bytes, and says how many there are then. The bytes after them may be any.
#[inline(always)]
pub fn put_name(bytes: &mut [u8], end: usize, name: &ShortName) -> usize
    requires { end + 32 ≤ length bytes.old }
    ensures put { take result bytes.new ≡ take end bytes.old ++ name.now }
    ensures short { result ≤ end + 32 }
{
    bytes[end..end + WIDTH].copy_from_slice(&name.bytes);
    end + name.len
}
