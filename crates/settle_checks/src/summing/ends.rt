//! How many transitions there were, and when the last event was.

ghost use Rattle.std.specs.Prelude.{◌≡◌, IfSome};
ghost use Rattle.settle_meaning.specs.Closed as closed;
ghost use Rattle.settle_meaning.specs.Times as times;
ghost use Rattle.settle_checks.specs.Summary.{AreSummaries};

use crate::summing::summary::Summary;
use run_record::Record;

/// How many transitions the records have. None: more than can be counted.
pub fn transitions(records: &[Record], sums: &[Summary]) -> Option<u64>
    requires { AreSummaries records.now sums.now }
    ensures { IfSome result (λ count. count ≡ closed.transitions records.now) }
{
    let mut count: u64 = 0;
    for sum in sums {
        count = count.checked_add(sum.course.transitions)?;
    }
    Some(count)
}

/// The time of the last event of all records, and 0 where none has a time.
pub fn latest(records: &[Record], sums: &[Summary]) -> u64
    requires { AreSummaries records.now sums.now }
    ensures { result ≡ times.latest records.now }
{
    let mut latest = 0;
    for sum in sums {
        latest = sum.course.time.max(latest);
    }
    latest
}
