//! Whether all was put that was sent.

ghost use Rattle.std.specs.Prelude.{◌≡◌, ◌≤◌, ℕ, List, All, IfOk, OnOk, length, slice_index_or};
ghost use Rattle.port_model.specs.declared.values.pid.Pid.TheVariants.{Of};
ghost use Rattle.run_record.specs.Record.{RecordValue};
ghost use Rattle.run_semantics.specs.World.{most_instances};
ghost use Rattle.settle_checks.specs.Account.{AreAllPut, ArePutAlong, ArePutToBorn, IsAllHeard, IsAllPut, IsPutToOne};
ghost use Rattle.settle_checks.specs.Outputs.{AreNamed, targets_of};
ghost use Rattle.settle_meaning.specs.Puts.{Heard};
ghost use Rattle.settle_checks.specs.Summary.{AreSummaries, IsSummary};
ghost use Rattle.settle_checks.specs.Totals.{AreTotals};
ghost use Rattle.threads_ports.specs.Peers.{put_to};

use crate as checks;
use crate::summing::{Summary, Totals, is_enough};
use port_model::Pid;
use run_record::{Record, RunError};
use sdl_system::Target;
use std::alloc::{AllocError, Global};
use threads_ports::{Peers, Run};

/// The greatest number that an instance may have.
const MOST_INSTANCES: u32 = 1_000;

/// Compares what each record sends, by its summary, with what the senders of its place have put. `named` has the numbers
/// that the script names. Lost: a signal is missing that may not be, with the number that it should have reached.
pub fn all_put<J: Run>(
    alloc: Global,
    records: &[Record],
    sums: &[Summary],
    places: &[Peers<J>],
    named: &[bool],
) -> Result<(), RunError>
    requires { AreSummaries records.now sums.now }
    ensures { OnOk result ((heard : List Heard) → AreNamed heard named.now
        → AreAllPut heard records.now places.now) }
{
    for k in 0..records.len() {
        if k >= sums.len() || k + 1 >= places.len() {
            return Err(RunError::Lost(records[k].pid()));
        }
        all_put_by(alloc, records, &records[k], &sums[k], &places[k + 1], named)?;
    }
    Ok(())
}

/// Compares what one record sends with what its senders have put. Only to whom it sends something, and whom it creates,
/// something can be missing.
fn all_put_by<J: Run>(
    alloc: Global,
    records: &[Record],
    from: &Record,
    sum: &Summary,
    peers: &Peers<J>,
    named: &[bool],
) -> Result<(), RunError>
    requires { IsSummary from.now sum.now }
    ensures { OnOk result ((heard : List Heard) → AreNamed heard named.now
        → IsAllPut heard records.now from.now peers.now) }
{
    let Some(totals) = Totals::of(alloc, sum.sending.flows.as_slice())? else {
        return Err(RunError::Lost(from.pid()));
    };
    put_along(records, from, sum, &totals, peers, named)?;
    put_to_born(records, from, sum, &totals, peers, named)?;
    Ok(())
}

/// Compares what a record sends with what was put, to whom it sends something.
fn put_along<J: Run>(
    records: &[Record],
    from: &Record,
    sum: &Summary,
    totals: &Totals,
    peers: &Peers<J>,
    named: &[bool],
) -> Result<(), RunError>
    requires sum { IsSummary from.now sum.now }
    requires totals { AreTotals sum.now.sending.flows totals.now }
    ensures { OnOk result ((heard : List Heard) → AreNamed heard named.now
        → ArePutAlong heard records.now from.now peers.now sum.now.sending.flows) }
{
    for flow in sum.sending.flows.as_slice() {
        put_to_peer(records, from, sum, totals, peers, named, flow.pass.peer)?;
    }
    Ok(())
}

/// Compares what a record sends with what was put, to those whom it creates.
fn put_to_born<J: Run>(
    records: &[Record],
    from: &Record,
    sum: &Summary,
    totals: &Totals,
    peers: &Peers<J>,
    named: &[bool],
) -> Result<(), RunError>
    requires sum { IsSummary from.now sum.now }
    requires totals { AreTotals sum.now.sending.flows totals.now }
    ensures { OnOk result ((heard : List Heard) → AreNamed heard named.now
        → ArePutToBorn heard records.now from.now peers.now sum.now.creating.births.items) }
{
    for birth in &sum.creating.births {
        put_to_one(records, from, sum, totals, peers, named, birth.number)?;
    }
    Ok(())
}

/// Compares what a record sends to this peer with what was put, if that is an instance that has a record.
fn put_to_peer<J: Run>(
    records: &[Record],
    from: &Record,
    sum: &Summary,
    totals: &Totals,
    peers: &Peers<J>,
    named: &[bool],
    peer: Pid,
) -> Result<(), RunError>
    requires sum { IsSummary from.now sum.now }
    requires totals { AreTotals sum.now.sending.flows totals.now }
    ensures { OnOk result ((heard : List Heard) → AreNamed heard named.now → (number : ℕ) → peer ≡ Of number
        → IsPutToOne heard records.now from.now peers.now number) }
{
    match peer {
        Pid::Of(number) => put_to_one(records, from, sum, totals, peers, named, number),
        _ => Ok(()),
    }
}

/// Compares what a record sends to the instance of this number with what was put, if it has a record.
fn put_to_one<J: Run>(
    records: &[Record],
    from: &Record,
    sum: &Summary,
    totals: &Totals,
    peers: &Peers<J>,
    named: &[bool],
    number: u32,
) -> Result<(), RunError>
    requires sum { IsSummary from.now sum.now }
    requires totals { AreTotals sum.now.sending.flows totals.now }
    ensures { OnOk result ((heard : List Heard) → AreNamed heard named.now
        → IsPutToOne heard records.now from.now peers.now number) }
{
    for to in records {
        if to.pid() != number {
            continue;
        }
        if !is_enough(sum, totals, peers.sent(number), named, from, to) {
            return Err(RunError::Lost(number));
        }
    }
    Ok(())
}

/// Compares what the environment sends with what its senders have put. `targets` has where the signals of the script
/// went. Lost: a signal is missing that may not be, with the number that it should have reached.
pub fn all_heard<J: Run>(
    alloc: Global,
    records: &[Record],
    peers: &Peers<J>,
    targets: &[Target],
    named: &[bool],
) -> Result<(), RunError>
    requires { All (λ (trace : RecordValue). trace.pid ≤ most_instances) records.now }
    ensures { OnOk result ((heard : List Heard) → targets_of heard ≡ targets.now → AreNamed heard named.now
        → IsAllHeard heard records.now peers.now) }
{
    let sent = row_of(alloc, peers)?;
    if checks::all_heard(alloc, targets, &sent, named, records)? {
        return Ok(());
    }
    Err(RunError::Lost(missed(alloc, targets, &sent, named, records)?))
}

/// The number of an instance that a signal of the script should have reached. 0: there is none.
fn missed(
    alloc: Global,
    targets: &[Target],
    sent: &[u64],
    named: &[bool],
    records: &[Record],
) -> Result<u32, AllocError> {
    for k in 0..records.len() {
        if !checks::all_heard(alloc, targets, sent, named, &records[k..k + 1])? {
            return Ok(records[k].pid());
        }
    }
    Ok(0)
}

/// How many signals the senders have put into the port of each number.
fn row_of<J: Run>(alloc: Global, peers: &Peers<J>) -> Result<Vec<u64>, AllocError>
    ensures { IfOk result (λ row. (number : ℕ) → number ≤ most_instances
        → slice_index_or row.items number 0 ≡ length (put_to peers.now number)) }
{
    let mut row = Vec::with_capacity(alloc, MOST_INSTANCES as usize + 1)?;
    for number in 0..MOST_INSTANCES + 1 {
        row.push(peers.sent(number))?;
    }
    Ok(row)
}
