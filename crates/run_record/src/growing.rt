//! How the lists of a record grow.

ghost use Rattle.std.specs.Prelude.{◌≡◌, ◌+◌, ◌≤◌, vec_len, vec_capacity, OnOk};

use std::alloc::{AllocError, Global};

/// A list with room for fewer items moves as it grows.
const MOST_MOVED: usize = 4_096;

/// Makes room for so many items more. Nothing else changes, and there is never less room than before. Refused for lack of
/// memory.
///
/// A list with little room moves into memory that the calling thread asks for. The C library keeps the memory of each
/// thread apart, with a lock for it. A block that grows stays with the thread that asked for it first, and the lock is held
/// while it is copied. The records that a run begins with are all of one thread, so the workers would wait for each other.
#[inline(never)]
pub fn grow<T: Copy + Drop>(list: &mut Vec<T>, more: usize) -> Result<(), AllocError>
    ensures items { list.new.items ≡ list.old.items }
    ensures len { vec_len list.new ≡ vec_len list.old }
    ensures ok { OnOk result (vec_len list.new + more ≤ vec_capacity list.new) }
    ensures capacity { vec_capacity list.old ≤ vec_capacity list.new }
{
    let room = list.capacity();
    if room >= MOST_MOVED {
        return list.reserve(more);
    }
    let Some(wanted) = list.len().checked_add(more) else {
        return Err(AllocError);
    };
    let alloc: Global = *list.allocator();
    let mut moved = Vec::with_capacity(alloc, wanted.max(room.saturating_mul(2)))?;
    moved.append(list)?;
    *list = moved;
    Ok(())
}
