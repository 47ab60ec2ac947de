//! Numbers of definitions.

ghost use Rattle.std.specs.Prelude.{◌≡◌, ◌<◌, ◌+◌, ◌^◌, IfOk, IsOk};

use std::alloc::AllocError;

/// The number behind this one. There is no memory for so many definitions that it has none.
pub fn next_number(number: u32) -> Result<u32, AllocError>
    ensures same { IfOk result (λ next. next ≡ number + 1) }
    ensures fits { number + 1 < 2 ^ 32 → IsOk result }
{
    match number.checked_add(1) {
        Some(next) => Ok(next),
        None => Err(AllocError),
    }
}
