//! Numbers of 32 bits.

ghost use Rattle.std.specs.Prelude.{◌≡◌, ◌^◌, ◌<◌, IfOk, IsOk};

use std::alloc::AllocError;

/// The number as one of 32 bits. There is no memory for more.
pub fn counted(number: usize) -> Result<u32, AllocError>
    ensures same { IfOk result (λ counted. counted ≡ number) }
    ensures fits { number < 2 ^ 32 → IsOk result }
{
    match u32::try_from(number) {
        Ok(counted) => Ok(counted),
        Err(_) => Err(AllocError),
    }
}
