//! Whether all that a record sends was put.

ghost use Rattle.std.specs.Prelude.{◌≡◌, List, IsTrue, false, slice_index_or};
ghost use Rattle.settle_checks.specs.Outputs.{AreNamed, IsEnough};
ghost use Rattle.settle_meaning.specs.Puts.{Heard, IsNamed, MayMiss};
ghost use Rattle.settle_checks.specs.Enough.{IsEnoughSince};
ghost use Rattle.settle_checks.specs.Summary.{IsSummary};
ghost use Rattle.settle_checks.specs.Totals.{AreTotals};

use crate::summing::creating::Birth;
use crate::summing::flows::is_number;
use crate::summing::living::is_null;
use crate::summing::summary::Summary;
use crate::summing::totals::Totals;
use run_record::Record;

/// Whether so many signals were put, from the one to the other, as the record with this summary sends, or those that are
/// missing may be. `totals` are those of what it sends, and `named` has the numbers that the script names.
pub fn is_enough(
    sum: &Summary,
    totals: &Totals,
    put: u64,
    named: &[bool],
    from: &Record,
    to: &Record,
) -> bool
    requires sum { IsSummary from.now sum.now }
    requires totals { AreTotals sum.now.sending.flows totals.now }
    ensures { IsTrue result → (heard : List Heard) → AreNamed heard named.now
        → IsEnough (IsNamed heard) from.now to.now put }
{
    let number = to.pid();
    let all = totals.to(number);
    if all > put && !may_miss(named, from, to) {
        return false;
    }
    are_enough_since(&sum.creating.births, number, all, put)
}

/// Whether so many signals were put as were sent since each create of this number. So many were sent to it in all.
fn are_enough_since(births: &[Birth], number: u32, all: u64, put: u64) -> bool
    ensures { IsTrue result → IsEnoughSince births.now number all put }
{
    for birth in births {
        if birth.number == number && all.saturating_sub(birth.sent) > put {
            return false;
        }
    }
    true
}

/// Whether the first signals from the one to the other may be missing.
fn may_miss(named: &[bool], from: &Record, to: &Record) -> bool
    ensures { IsTrue result → (heard : List Heard) → AreNamed heard named.now
        → MayMiss (IsNamed heard) from.now to.now }
{
    let number = to.pid();
    !is_null(to.parent())
        && from.pid() != number
        && !is_number(from.parent(), number)
        && is_named(named, number as usize)
}

/// Whether the script names the number.
fn is_named(named: &[bool], number: usize) -> bool
    ensures { result ≡ slice_index_or named.now number false }
{
    match named.get(number) {
        None => false,
        Some(is) => *is,
    }
}
