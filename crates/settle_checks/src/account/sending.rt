//! What a sender sends and has put.

ghost use Rattle.std.specs.Prelude.{◌≡◌, ◌≤◌, ℕ, All, IsTrue, OnOk, length};
ghost use Rattle.port_model.specs.declared.values.pid.Pid.TheVariants.{Of};
ghost use Rattle.settle_checks.specs.Crossed.{AreTotalsOf, IsBornAfter, IsRestSent, IsSentBy};
ghost use Rattle.settle_meaning.specs.Identities.{AreRising};
ghost use Rattle.settle_checks.specs.Flows.{counted, is_with, sent_passes};
ghost use Rattle.settle_checks.specs.Summary.{IsSummary};
ghost use Rattle.settle_checks.specs.Totals.{AreTotals, total};
ghost use Rattle.settle_checks.specs.declared.summing.creating.Birth.{Birth};
ghost use Rattle.threads_ports.specs.Peers.{put_to};

use crate::summing::{
    Birth, Crossing, Flow, Pass, Summary, Totals, add_sent, flows_of, late_flows, passes_of,
};
use port_model::Pid;
use run_record::{Record, RunError};
use std::alloc::Global;
use threads_ports::{Peers, Run};

/// Adds what the record sends and its senders have put. Lost: a signal is missing that was sent after the create of its
/// receiver, with that one's number.
#[tactic(auto, using(crate::proofs::SendLemmas::totals_of))]
pub fn send_one<J: Run>(
    alloc: Global,
    sent: &mut Vec<Crossing>,
    records: &[Record],
    sums: &[Summary],
    trace: &Record,
    sum: &Summary,
    peers: &Peers<J>,
) -> Result<(), RunError>
    requires rising { AreRising 0 records.now }
    requires sum { IsSummary trace.now sum.now }
    ensures { OnOk result (IsSentBy records.now sums.now (Of trace.now.pid) (sent_passes 0 trace.now.events) peers.now
        sent.old.items sent.new.items) }
{
    let from = Pid::Of(trace.pid());
    let flows = sum.sending.flows.as_slice();
    let Some(totals) = Totals::of(alloc, flows)? else {
        return Err(RunError::Lost(trace.pid()));
    };
    if are_all_put(flows, &totals, peers) {
        add_sent(sent, from, flows)?;
        return Ok(());
    }
    let passes = passes_of(alloc, trace)?;
    send_late(alloc, sent, records, sums, from, &passes, &totals, peers)
}

/// Adds these signals of a sender except what wasn't put. Lost: as above, or there are more than can be counted, with 0.
#[tactic(auto, using(crate::proofs::SendLemmas::totals_of))]
pub fn send_passes<J: Run>(
    alloc: Global,
    sent: &mut Vec<Crossing>,
    records: &[Record],
    sums: &[Summary],
    from: Pid,
    passes: &[Pass],
    peers: &Peers<J>,
) -> Result<(), RunError>
    requires rising { AreRising 0 records.now }
    ensures { OnOk result (IsSentBy records.now sums.now from passes.now peers.now sent.old.items sent.new.items) }
{
    let Some(counted) = flows_of(alloc, passes)? else {
        return Err(RunError::Lost(0));
    };
    let flows = counted.as_slice();
    let Some(totals) = Totals::of(alloc, flows)? else {
        return Err(RunError::Lost(0));
    };
    if are_all_put(flows, &totals, peers) {
        add_sent(sent, from, flows)?;
        return Ok(());
    }
    send_late(alloc, sent, records, sums, from, passes, &totals, peers)
}

/// Whether all was put of these flows.
fn are_all_put<J: Run>(flows: &[Flow], totals: &Totals, peers: &Peers<J>) -> bool
    requires { AreTotals flows.now totals.now }
    ensures { IsTrue result
        → (number : ℕ) → counted (is_with number) flows.now ≤ length (put_to peers.now number) }
{
    for flow in flows {
        if !is_all_put(*flow, totals, peers) {
            return false;
        }
    }
    true
}

/// Whether all was put that was sent to the instance to which the flow leads.
fn is_all_put<J: Run>(flow: Flow, totals: &Totals, peers: &Peers<J>) -> bool
    ensures { IsTrue result → (number : ℕ) → flow.pass.peer ≡ Of number
        → total totals.now number ≤ length (put_to peers.now number) }
{
    match flow.pass.peer {
        Pid::Of(number) => totals.to(number) <= peers.sent(number),
        _ => true,
    }
}

/// Adds these signals of a sender except what wasn't put. That happens only if the script names a number before there is
/// its instance, so it may take its time.
#[tactic(auto, using(crate::proofs::SendLemmas::rests_none, crate::proofs::SendLemmas::rests_all))]
fn send_late<J: Run>(
    alloc: Global,
    sent: &mut Vec<Crossing>,
    records: &[Record],
    sums: &[Summary],
    from: Pid,
    passes: &[Pass],
    totals: &Totals,
    peers: &Peers<J>,
) -> Result<(), RunError>
    requires rising { AreRising 0 records.now }
    requires totals { AreTotalsOf passes.now totals.now }
    ensures { OnOk result (IsSentBy records.now sums.now from passes.now peers.now sent.old.items sent.new.items) }
{
    for to in records {
        let number = to.pid();
        let missing = totals.to(number).saturating_sub(peers.sent(number));
        send_rest(alloc, sent, sums, from, passes, number, missing)?;
    }
    Ok(())
}

/// Adds those of these signals of a sender that go to this number, except the first ones, which are missing. Lost: one of
/// these was sent after the create of the number.
fn send_rest(
    alloc: Global,
    sent: &mut Vec<Crossing>,
    sums: &[Summary],
    from: Pid,
    passes: &[Pass],
    number: u32,
    missing: u64,
) -> Result<(), RunError>
    ensures { OnOk result (IsRestSent from passes.now number missing sums.now sent.old.items sent.new.items) }
{
    let born = born_at(sums, number);
    let Some(rest) = late_flows(alloc, passes, number, missing, born)? else {
        return Err(RunError::Lost(number));
    };
    add_sent(sent, from, rest.as_slice())?;
    Ok(())
}

/// The time of the create of this number, the least if there are several, and the greatest of all if there is none.
#[tactic(auto, using(crate::proofs::SendLemmas::births_more))]
fn born_at(sums: &[Summary], number: u32) -> u64
    ensures { All (IsBornAfter number result) sums.now }
{
    let mut born = u64::MAX;
    for sum in sums {
        born = born_by(born, &sum.creating.births, number);
    }
    born
}

/// The least of this time and those of the births of this number.
#[tactic(auto, using(crate::proofs::SendLemmas::birth_more))]
fn born_by(born: u64, births: &[Birth], number: u32) -> u64
    ensures less { result ≤ born }
    ensures all { All (λ (birth : Birth). birth.number ≡ number → result ≤ birth.at) births.now }
{
    let mut least = born;
    for birth in births {
        if birth.number == number {
            least = least.min(birth.at);
        }
    }
    least
}
