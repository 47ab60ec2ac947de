//! When instances start, and whom they create.

ghost use Rattle.std.specs.Prelude.{IsTrue};
ghost use Rattle.settle_meaning.specs.Identities.{AreRising};
ghost use Rattle.settle_meaning.specs.Starts.{AreStarted};
ghost use Rattle.settle_checks.specs.Starts.{AreBornBy, IsBornBy, IsStartTime, StartsFirst};
ghost use Rattle.settle_checks.specs.Summary.{AreSummaries, IsSummary};

use crate::summing::creating::Birth;
use crate::summing::places::place_of;
use crate::summing::summary::Summary;
use port_model::Pid;
use run_record::Record;

/// Whether who is there at the beginning starts at time 0, and each other instance has a greater number than its creator
/// and starts at the time of its create.
pub fn are_started(records: &[Record], sums: &[Summary]) -> bool
    requires rising { AreRising 0 records.now }
    requires sums { AreSummaries records.now sums.now }
    ensures { IsTrue result → AreStarted records.now }
{
    for k in 0..records.len() {
        if k >= sums.len() || !starts_first(&records[k], &sums[k]) {
            return false;
        }
        if !are_born(records, sums, records[k].pid(), &sums[k].creating.births) {
            return false;
        }
    }
    true
}

/// Whether the instance, if the system begins with it, starts at time 0.
fn starts_first(trace: &Record, sum: &Summary) -> bool
    requires { IsSummary trace.now sum.now }
    ensures { IsTrue result → StartsFirst trace.now }
{
    match trace.parent() {
        Pid::Null => starts_at(sum, 0),
        _ => true,
    }
}

/// Whether the start, if there is one, is at this time.
fn starts_at(sum: &Summary, time: u64) -> bool
    ensures { IsTrue result → IsStartTime sum.now.course.start time }
{
    match sum.course.start {
        None => true,
        Some(at) => at == time,
    }
}

/// Whether the children of a creator have greater numbers, and start as they are created.
fn are_born(records: &[Record], sums: &[Summary], creator: u32, births: &[Birth]) -> bool
    requires rising { AreRising 0 records.now }
    requires sums { AreSummaries records.now sums.now }
    ensures { IsTrue result → AreBornBy records.now creator births.now }
{
    for birth in births {
        if !is_born(records, sums, creator, *birth) {
            return false;
        }
    }
    true
}

/// Whether the child has a greater number than its creator, and starts as it is created.
fn is_born(records: &[Record], sums: &[Summary], creator: u32, birth: Birth) -> bool
    requires rising { AreRising 0 records.now }
    requires sums { AreSummaries records.now sums.now }
    ensures { IsTrue result → IsBornBy records.now creator birth }
{
    let Some(place) = place_of(records, birth.number) else {
        return true;
    };
    place < sums.len() && creator < birth.number && starts_at(&sums[place], birth.at)
}
