//! The stack of the calling thread.

use std::alloc::{AllocError, Global};

/// How many words of the stack a run touches beforehand: half a megabyte. Settling and the report go less deep.
const WORDS: usize = 65_536;

/// How many bytes of memory must be there first: as many, and some more.
const SPARE: usize = 1_048_576;

/// Has the system give the calling thread the stack that the rest of a run with so many workers needs. It gives stack
/// where it is touched. Once other threads have all the memory that is allowed, it gives none, and ends the program.
/// Refused for lack of memory.
pub fn touch_stack(alloc: Global, workers: usize) -> Result<(), AllocError> {
    // If so much memory isn't there, that is told here. To touch the stack would end the program.
    drop(spare_block(alloc)?);
    // What is written there is read, so no compiler leaves the touch out.
    if touched(workers) == workers {
        Ok(())
    } else {
        Err(AllocError)
    }
}

/// A block of memory, larger than the stack that is to be touched.
#[inline(never)]
fn spare_block(alloc: Global) -> Result<Vec<u8>, AllocError> {
    Vec::with_capacity(alloc, SPARE)
}

/// Fills a part of the stack with a number, and reads it back at a place that only the run knows.
#[inline(never)]
fn touched(workers: usize) -> usize {
    let room = [workers; WORDS];
    match room.get(workers) {
        Some(same) => *same,
        None => workers,
    }
}
