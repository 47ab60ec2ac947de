//! Whether signals went where the routes lead them.

ghost use Rattle.std.specs.Prelude.{◌≡◌, All, IsTrue};
ghost use Rattle.settle_meaning.specs.Living.{AreLiving, AreMeant};
ghost use Rattle.settle_checks.specs.Summary.{IsSummary};
ghost use Rattle.settle_checks.specs.Routes.{IsRight};

use crate::summing::summary::Summary;
use crate::targets::{Routed, is_meant};
use run_record::Record;
use sdl_system::System;

/// Whether each output of the record with this summary went where the routes lead it, by some instances that may have
/// lived then. `first` has the least numbers of those that lived all the time, as `lived` gives it.
pub fn are_meant(
    system: &System,
    records: &[Record],
    first: &mut [Option<u32>],
    trace: &Record,
    sum: &Summary,
) -> bool
    requires living { AreLiving records.now first.old }
    requires sum { IsSummary trace.now sum.now }
    ensures meant { IsTrue result → AreMeant system.now records.now trace.now }
    ensures same { first.new ≡ first.old }
{
    are_right(system, records, first, &sum.sending.routed)
}

/// Whether each of these signals went where the routes lead it.
fn are_right(
    system: &System,
    records: &[Record],
    first: &mut [Option<u32>],
    routed: &[Routed],
) -> bool
    requires { AreLiving records.now first.old }
    ensures right { IsTrue result → All (IsRight system.now records.now) routed.now }
    ensures same { first.new ≡ first.old }
{
    for one in routed {
        if !is_meant(system, records, first, *one) {
            return false;
        }
    }
    true
}
