//! Whether the records are those of all instances.

ghost use Rattle.std.specs.Prelude.{All, OnOk};
ghost use Rattle.run_record.specs.Record.{RecordValue};
ghost use Rattle.settle_checks.specs.Account.{AreAllMade};
ghost use Rattle.settle_meaning.specs.Identities.{AreRising, HasCause};
ghost use Rattle.settle_meaning.specs.Starts.{AreStarted, AreWithin};
ghost use Rattle.settle_checks.specs.Summary.{AreSummaries};

use crate::numbers::in_order;
use crate::summing::{Summary, are_caused, are_made, are_started, are_within};
use run_record::{Record, RunError};
use sdl_system::System;
use std::alloc::Global;

/// Looks whether each instance has its record, and there is no other. Lost: with the first number out of order, or 0.
pub fn all_made(
    alloc: Global,
    system: &System,
    records: &[Record],
    sums: &[Summary],
) -> Result<(), RunError>
    requires { AreSummaries records.now sums.now }
    ensures { OnOk result (AreAllMade system.now records.now) }
{
    if !in_order(records) {
        return Err(RunError::Lost(out_of_order(records)));
    }
    if !are_made(alloc, system, records, sums)? {
        return Err(RunError::Lost(0));
    }
    Ok(())
}

/// The first number that is out of order.
fn out_of_order(records: &[Record]) -> u32 {
    let mut last = 0;
    for record in records {
        if record.pid() <= last {
            return record.pid();
        }
        last = record.pid();
    }
    last
}

/// Looks whether each create of null has a cause. Lost: with 0.
pub fn all_caused(system: &System, records: &[Record], sums: &[Summary]) -> Result<(), RunError>
    requires { AreSummaries records.now sums.now }
    ensures { OnOk result (All (λ (trace : RecordValue). All (HasCause system.now records.now) trace.events)
        records.now) }
{
    if are_caused(system, records, sums) {
        return Ok(());
    }
    Err(RunError::Lost(0))
}

/// Looks whether instances start as they are created, and no more of a process live on than may. Lost: with 0.
pub fn all_lived(system: &System, records: &[Record], sums: &[Summary]) -> Result<(), RunError>
    requires rising { AreRising 0 records.now }
    requires sums { AreSummaries records.now sums.now }
    ensures started { OnOk result (AreStarted records.now) }
    ensures within { OnOk result (AreWithin system.now records.now) }
{
    if !are_started(records, sums) || !are_within(system, records, sums) {
        return Err(RunError::Lost(0));
    }
    Ok(())
}
