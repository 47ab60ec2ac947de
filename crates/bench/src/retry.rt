//! Calls of a port that are made again if they are refused for lack of memory, with what came back. In `retried` a row
//! keeps which of its calls was refused: it bears one refusal.

ghost use Rattle.std.specs.Prelude.{◌≡◌, ◌+◌, ◌<◌, [], IfErr, IfOk, OnErr, OnOk};
ghost use Rattle.bench.specs.Words.{newborn, Gathers, HasDrawn, Puts, Signal, TakesHere};

use crate::call::Call;
use crate::fault::Fault;
use input_port::birth::port;
use input_port::{Desk, Finished, NewPort, Owner, Port, Retired, Sender};
use port_model::{Item, Selection, Taken};
use std::alloc::Global;
use std::sync::Wait;

/// The number of the instance whose port it is.
const PID: u32 = 1;

/// Makes an empty port.
pub fn open(alloc: Global, retried: &mut Option<Call>) -> Result<NewPort, Fault>
    ensures owner { IfOk result (λ made. made.owner ≡ newborn made.port.queue 1) }
    ensures desk { IfOk result (λ made. made.desk ≡ record { port = made.port.queue; given = 0 }) }
    ensures error { IfErr result (λ fault. fault ≡ Fault.Refused Call.Port) }
{
    match port(alloc, PID) {
        Ok(made) => Ok(made),
        Err(_) => {
            Call::Port.retry(retried)?;
            match port(alloc, PID) {
                Ok(made) => Ok(made),
                Err(_) => Err(Fault::Refused(Call::Port)),
            }
        }
    }
}

/// The next sender of a port. It takes no memory, so its number is always the one that is due.
pub fn next_sender(port: &Port, desk: &mut Desk) -> Sender
    requires port { desk.old.port ≡ port.now.queue }
    requires few { desk.old.given < 1001 }
    ensures port { desk.new.port ≡ desk.old.port }
    ensures given { desk.new.given ≡ desk.old.given + 1 }
    ensures sender { result ≡ record { port = desk.old.port; number = desk.old.given + 1; seen = [] } }
{
    let Ok(sender) = desk.sender(port) else {
        unreachable!()
    };
    sender
}

/// Puts a signal.
pub fn put<R: Wait>(
    rt: &R,
    port: &Port,
    sender: &mut Sender,
    item: Item,
    retried: &mut Option<Call>,
) -> Result<(), Fault>
    requires { sender.old.port ≡ port.now.queue }
    ensures port { sender.new.port ≡ sender.old.port }
    ensures put { OnOk result (Puts sender.old sender.new 0 (Signal item)) }
    ensures refused { OnErr result (sender.new ≡ sender.old) }
    ensures error { IfErr result (λ fault. fault ≡ Fault.Refused Call.Put) }
{
    match sender.put(rt, port, item) {
        Ok(()) => Ok(()),
        Err(back) => {
            Call::Put.retry(retried)?;
            match sender.put(rt, port, back.value) {
                Ok(()) => Ok(()),
                Err(_) => Err(Fault::Refused(Call::Put)),
            }
        }
    }
}

/// Takes from a port. A refused take has taken nothing, and at most drawn. So the next one gives what it would have
/// given.
#[tactic(auto, using(crate::proofs::Takes::takes_later))]
pub fn take<R: Wait>(
    rt: &R,
    port: &Port,
    owner: &mut Owner,
    selection: &Selection,
    retried: &mut Option<Call>,
) -> Result<Taken, Fault>
    requires { owner.old.port ≡ port.now.queue }
    ensures port { owner.new.port ≡ owner.old.port }
    ensures take { IfOk result (TakesHere selection.now owner.old owner.new) }
    ensures refused { OnErr result (HasDrawn owner.old owner.new) }
    ensures error { IfErr result (λ fault. fault ≡ Fault.Refused Call.Take) }
{
    match owner.take(rt, port, selection) {
        Ok(taken) => Ok(taken),
        Err(_) => {
            Call::Take.retry(retried)?;
            match owner.take(rt, port, selection) {
                Ok(taken) => Ok(taken),
                Err(_) => Err(Fault::Refused(Call::Take)),
            }
        }
    }
}

/// Gathers a sender with an owner.
pub fn gather<R: Wait>(
    rt: &R,
    port: &Port,
    owner: &mut Owner,
    sender: Sender,
    retried: &mut Option<Call>,
) -> Result<(), Fault>
    requires owner { owner.old.port ≡ port.now.queue }
    requires sender { sender.port ≡ port.now.queue }
    ensures port { owner.new.port ≡ owner.old.port }
    ensures gather { OnOk result (Gathers owner.old owner.new sender) }
    ensures refused { OnErr result (owner.new ≡ owner.old) }
    ensures error { IfErr result (λ fault. fault ≡ Fault.Refused Call.Gather) }
{
    match owner.gather(rt, port, sender) {
        Ok(()) => Ok(()),
        Err(back) => {
            Call::Gather.retry(retried)?;
            match owner.gather(rt, port, back.value) {
                Ok(()) => Ok(()),
                Err(_) => Err(Fault::Refused(Call::Gather)),
            }
        }
    }
}

/// Ends a port.
pub fn finish<R: Wait>(
    rt: &R,
    port: &Port,
    owner: Owner,
    retried: &mut Option<Call>,
) -> Result<Finished, Fault>
    requires { owner.port ≡ port.now.queue }
    ensures { IfErr result (λ fault. fault ≡ Fault.Refused Call.Finish) }
{
    match owner.finish(rt, port) {
        Ok(end) => Ok(end),
        Err(back) => {
            Call::Finish.retry(retried)?;
            match back.value.finish(rt, port) {
                Ok(end) => Ok(end),
                Err(_) => Err(Fault::Refused(Call::Finish)),
            }
        }
    }
}

/// Ends a port whose owner has stopped.
pub fn finish_stopped<R: Wait>(
    rt: &R,
    port: &Port,
    retired: Retired,
    retried: &mut Option<Call>,
) -> Result<Finished, Fault>
    requires { retired.owner.port ≡ port.now.queue }
    ensures { IfErr result (λ fault. fault ≡ Fault.Refused Call.Finish) }
{
    match retired.finish(rt, port) {
        Ok(end) => Ok(end),
        Err(back) => {
            Call::Finish.retry(retried)?;
            match back.value.finish(rt, port) {
                Ok(end) => Ok(end),
                Err(_) => Err(Fault::Refused(Call::Finish)),
            }
        }
    }
}
