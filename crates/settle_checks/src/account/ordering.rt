//! Whether what was taken was sent before.

ghost use Rattle.std.specs.Prelude.{◌≡◌, IfOk, List, OnOk};
ghost use Rattle.settle_checks.specs.Account.{AreOrdered, HaveSignals};
ghost use Rattle.settle_checks.specs.Crossed.{AreCrossed, AreHeardCrossed, AreTakenIn};
ghost use Rattle.settle_checks.specs.Outputs.{targets_of};
ghost use Rattle.sdl_script.specs.declared.script.ScriptLine.{ScriptLine};
ghost use Rattle.settle_meaning.specs.Identities.{AreRising};
ghost use Rattle.settle_meaning.specs.Puts.{Heard};
ghost use Rattle.settle_checks.specs.Summary.{AreSummaries};

use crate::account::hearing::heard_crossings;
use crate::account::sending::send_one;
use crate::summing::laws::{covered_are_in_order, sends_are_in_turn};
use crate::summing::{Crossing, Summary, add_taken, are_covered};
use run_record::{Record, RunError};
use sdl_script::ScriptLine;
use sdl_system::Target;
use std::alloc::Global;
use threads_ports::{Peers, Run};

/// Compares when signals were taken with when they were sent, of all that the senders of all places have put; and looks
/// whether what is missing was sent before there was its receiver. `lines` are those of the script, and `targets` has where
/// the signals went of those that were heard. Lost: a signal is missing that was sent after the create of its receiver, with
/// the receiver's number; or one is taken before it was sent, with 0.
pub fn all_ordered<J: Run>(
    alloc: Global,
    records: &[Record],
    sums: &[Summary],
    places: &[Peers<J>],
    lines: &[ScriptLine],
    targets: &[Target],
) -> Result<(), RunError>
    requires rising { AreRising 0 records.now }
    requires sums { AreSummaries records.now sums.now }
    ensures { OnOk result ((heard : List Heard) → targets_of heard ≡ targets.now
        → HaveSignals heard lines.now → AreOrdered lines.now heard records.now places.now) }
{
    if places.is_empty() {
        return Err(RunError::Lost(0));
    }
    let mut sent = heard_crossings(alloc, records, sums, &places[0], lines, targets)?;
    send_all(alloc, &mut sent, records, sums, places)?;
    let taken = taken_crossings(alloc, records, sums)?;
    covered_are_in_order();
    if are_covered(sent, taken)? {
        return Ok(());
    }
    Err(RunError::Lost(0))
}

/// Adds what all records send and the senders of their places have put. The environment's signals are there already, and
/// no others. Lost: a signal is missing that was sent after the create of its receiver, with that one's number.
fn send_all<J: Run>(
    alloc: Global,
    sent: &mut Vec<Crossing>,
    records: &[Record],
    sums: &[Summary],
    places: &[Peers<J>],
) -> Result<(), RunError>
    requires rising { AreRising 0 records.now }
    requires sums { AreSummaries records.now sums.now }
    ensures { OnOk result ((lines : List ScriptLine) (heard : List Heard)
        → AreHeardCrossed lines heard records.now places.now sent.old.items
        → AreCrossed lines heard records.now places.now sent.new.items) }
{
    sends_are_in_turn();
    for k in 0..records.len() {
        if k >= sums.len() || k + 1 >= places.len() {
            return Err(RunError::Lost(records[k].pid()));
        }
        send_one(
            alloc,
            sent,
            records,
            sums,
            &records[k],
            &sums[k],
            &places[k + 1],
        )?;
    }
    Ok(())
}

/// What all records take.
fn taken_crossings(
    alloc: Global,
    records: &[Record],
    sums: &[Summary],
) -> Result<Vec<Crossing>, RunError>
    requires rising { AreRising 0 records.now }
    requires sums { AreSummaries records.now sums.now }
    ensures { IfOk result (λ taken. AreTakenIn records.now taken.items) }
{
    let mut taken = Vec::new(alloc);
    for k in 0..records.len() {
        if k >= sums.len() {
            return Err(RunError::Lost(records[k].pid()));
        }
        add_taken(
            &mut taken,
            records[k].pid(),
            sums[k].taking.flows.as_slice(),
        )?;
    }
    Ok(taken)
}
