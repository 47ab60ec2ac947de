//! The ports of a run, once all that was put is drawn.

ghost use Rattle.std.specs.Prelude.{◌≡◌, ℕ, false, IfOk, IfSome, None, OnOk, vec_len};
ghost use Rattle.settle_checks.specs.Account.{AllAt, AreCountsOf, AreOwnersOf, HavePut};
ghost use Rattle.settle_closing.specs.PortThen.{then_of};
ghost use Rattle.settle_run.specs.Course.{ArePuts};
ghost use Rattle.settle_run.specs.Parts.{AreSettledPorts, AreThensOf, IsSettledPort};

use crate::course::puts_of;
use crate::parts::PortParts;
use input_port::Held;
use port_model::Ticks;
use run_record::{Record, RunError};
use settle_checks::{Counted, Fixed, counts_of};
use settle_closing::{PortThen, ends_as};
use std::sync::Wait;
use threads_ports::Run;
use threads_shared::Shared;

/// Counts the ports of all records, and looks whether the records close as the run ends. Answers who put what was drawn
/// from each, where the course of the run is kept. None: it isn't kept of all. That the name says what the places have
/// put and who the owners are is the caller's condition. `lacks_memory`: an instance failed for lack of memory.
/// Memory: no room for the counts, or for what is kept. Lost: with the number of the port.
pub fn settle_ports<'p, J: Run, K: Fixed, R: Wait + Copy>(
    shared: &Shared<'_, '_, 'p, J, R>,
    records: &[Record],
    ports: PortParts<'p, J, R>,
    whole: bool,
    end: Ticks,
    lacks_memory: bool,
) -> Result<Option<Vec<Vec<u32>>>, RunError>
    requires puts { AllAt (HavePut K.puts) ports.places.items }
    requires owners { AreOwnersOf K.owners J.ports records.now ports.inboxes.items }
    requires thens { AreThensOf K.owners ports.thens.items }
    ensures settled { IfOk result (λ _.
        AreSettledPorts K.puts K.owners (vec_len ports.entry.places) whole end records.now) }
    ensures off { shared.now.keeps_course ≡ false → IfOk result (λ kept. kept ≡ None) }
    ensures kept { IfOk result (λ kept. IfSome kept (λ rows.
        ArePuts K.puts K.owners (vec_len ports.entry.places) records.now rows.items)) }
{
    let PortParts {
        inboxes,
        thens,
        places,
    } = ports;
    let counted = counts_of::<J, K, R>(shared.alloc, records, inboxes, places)?;
    look_at_all(records, &thens, &counted, whole, end)?;
    if !lacks_memory {
        all_gathered(shared, &counted)?;
    }
    let kept = puts_of(shared, counted)?;
    Ok(kept)
}

/// Looks whether each record closes as the run ends.
fn look_at_all<J: Run, K: Fixed, R: Wait + Copy>(
    records: &[Record],
    thens: &[PortThen],
    counted: &[Counted<'_, J, K, R>],
    whole: bool,
    end: Ticks,
) -> Result<(), RunError>
    requires { AreThensOf K.owners thens.now }
    ensures { OnOk result ((places : ℕ) → AreCountsOf places records.now counted.now
        → AreSettledPorts K.puts K.owners places whole end records.now) }
{
    for k in 0..records.len() {
        if k >= thens.len() || k >= counted.len() {
            return Err(RunError::Lost(records[k].pid()));
        }
        look_at(&records[k], thens[k], &counted[k], whole, end)?;
    }
    Ok(())
}

/// Looks whether a record closes as the run ends, by what was known of its port and by its count.
fn look_at<J: Run, K: Fixed, R: Wait + Copy>(
    trace: &Record,
    then: PortThen,
    counted: &Counted<'_, J, K, R>,
    whole: bool,
    end: Ticks,
) -> Result<(), RunError>
    ensures { OnOk result (then ≡ then_of (K.owners counted.now.at) → IsSettledPort (K.puts counted.now.number)
        counted.now.places whole end (K.owners counted.now.at) trace.now) }
{
    let inbox = counted.inbox();
    counted.is_counted();
    inbox.is_kept();
    if !ends_as(whole, end, trace, then, inbox) {
        return Err(RunError::Lost(trace.pid()));
    }
    Ok(())
}

/// Looks whether each sender that a port has given out was gathered there.
///
/// An instance that finds no memory for a sender lets it go, and fails. So in a run in which none failed for lack of
/// memory each sender has put something or will, and one that is missing was lost.
fn all_gathered<J: Run, K: Fixed, R: Wait + Copy>(
    shared: &Shared<'_, '_, '_, J, R>,
    counted: &[Counted<'_, J, K, R>],
) -> Result<(), RunError> {
    for one in counted {
        if lacks_sender(shared, one.number(), one.inbox()) {
            return Err(RunError::Lost(one.number()));
        }
    }
    Ok(())
}

/// Whether the port of this number has given out more senders than it gathered.
fn lacks_sender<J: Run, R: Wait + Copy>(
    shared: &Shared<'_, '_, '_, J, R>,
    number: u32,
    inbox: &Held<'_, R>,
) -> bool {
    if shared.common.ports.port(number).is_none() {
        return true;
    }
    u64::from(shared.common.ports.given(shared.rt, number)) > inbox.gathered()
}
