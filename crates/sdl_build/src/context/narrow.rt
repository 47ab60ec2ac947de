//! Numbers of instances as the system keeps them.

ghost use Rattle.std.specs.Prelude.{SomeIff, unsigned_abs};
ghost use Rattle.std.specs.Int.{FitsUnsignedBits};
ghost use Rattle.sdl_build.specs.Headings.{IsBound, IsInitial, IsMaximum};

use build_constants::InstanceCounts;

/// The number as one of 32 bits, where it is one.
fn narrowed(number: i64) -> Option<u32>
    ensures { SomeIff result (FitsUnsignedBits 32 number) (unsigned_abs number) }
{
    u32::try_from(number).ok()
}

/// How many instances there are at the start; 0 where a rule is broken in the counts, or where they pass 32 bits.
pub fn initial_of(counts: Option<InstanceCounts>) -> u32
    ensures { IsInitial counts result }
{
    match counts {
        None => 0,
        Some(counts) => narrowed(counts.initial).unwrap_or(0),
    }
}

/// How many instances there may be at most. A bound past 32 bits is none, and so is one where a rule is broken in the
/// counts.
pub fn maximum_of(counts: Option<InstanceCounts>) -> Option<u32>
    ensures { IsMaximum counts result }
{
    match counts {
        None => None,
        Some(counts) => bound_of(counts.maximum),
    }
}

fn bound_of(maximum: Option<i64>) -> Option<u32>
    ensures { IsBound maximum result }
{
    match maximum {
        None => None,
        Some(maximum) => narrowed(maximum),
    }
}
