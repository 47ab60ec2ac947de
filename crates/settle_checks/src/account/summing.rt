//! The times of the records.

ghost use Rattle.std.specs.Prelude.{All, IfOk, IsTrue, OnOk};
ghost use Rattle.settle_checks.specs.Account.{AreTimed};
ghost use Rattle.settle_checks.specs.Summary.{AreSummaries, IsSummary};

use crate::summing::{Summary, are_due};
use run_record::{Record, RunError};
use std::alloc::{AllocError, Global};

/// Looks whether no signal of a timer is taken before its time. Lost: with the number of the instance that takes one.
pub fn all_timed(alloc: Global, records: &[Record], sums: &[Summary]) -> Result<(), RunError>
    requires { AreSummaries records.now sums.now }
    ensures { OnOk result (All AreTimed records.now) }
{
    for k in 0..records.len() {
        if k >= sums.len() {
            return Err(RunError::Lost(records[k].pid()));
        }
        if !is_timed(alloc, &records[k], &sums[k])? {
            return Err(RunError::Lost(records[k].pid()));
        }
    }
    Ok(())
}

/// Whether the record takes no signal of a timer before its time.
#[tactic(auto, using(crate::proofs::TimedLemmas::timed_without, crate::proofs::TimedLemmas::timed_with))]
fn is_timed(alloc: Global, trace: &Record, sum: &Summary) -> Result<bool, AllocError>
    requires { IsSummary trace.now sum.now }
    ensures { IfOk result (λ timed. IsTrue timed → AreTimed trace.now) }
{
    // A record that takes none at all needs no second look.
    if !sum.taking.timer {
        return Ok(true);
    }
    let due = are_due(alloc, trace)?;
    Ok(due)
}
