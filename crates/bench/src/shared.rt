//! The shared port with much in it.

ghost use Rattle.std.specs.Prelude.{◌≡◌, IfOk};

use crate::alone::{key, selection};
use crate::call::Call;
use crate::fault::Fault;
use crate::retry::{finish, next_sender, open, put};
use crate::signals::item;
use input_port::{NewPort, Owner, Port, Sender};
use port_model::{Class, Selection, Taken, Ticks};
use std::alloc::Global;
use std::sync::Wait;
use std::thread;
use std::thread::Threads;

/// A sender after its puts, and whether one of them was refused and made again.
#[derive(Drop)]
pub struct Sent {
    pub sender: Sender,
    pub retried: Option<Call>,
}

/// Puts by one sender, and takes by the owner.
pub fn puts<R: Wait>(
    rt: &R,
    alloc: Global,
    times: u64,
    retried: &mut Option<Call>,
) -> Result<u64, Fault> {
    let inputs = selection(alloc, &[Class::Input])?;
    let NewPort {
        port,
        mut owner,
        mut desk,
    } = open(alloc, retried)?;
    let sender = next_sender(&port, &mut desk);
    put_values(rt, alloc, &port, sender, 0, times)?;
    Ok(take_many(rt, &port, &mut owner, &inputs, times))
}

/// Puts so many signals of this name, with the values from 1.
fn put_values<R: Wait>(
    rt: &R,
    alloc: Global,
    port: &Port,
    mut sender: Sender,
    name: u32,
    each: u64,
) -> Result<Sent, Fault>
    requires { sender.port ≡ port.now.queue }
    ensures { IfOk result (λ sent. sent.sender.port ≡ port.now.queue) }
{
    let mut retried = None;
    for before in 0..each {
        let item = item(alloc, name, before.cast_signed().wrapping_add(1));
        put(rt, port, &mut sender, item, &mut retried)?;
    }
    Ok(Sent { sender, retried })
}

/// Takes until so many signals are consumed.
fn take_many<R: Wait>(
    rt: &R,
    port: &Port,
    owner: &mut Owner,
    classes: &Selection,
    times: u64,
) -> u64
    requires { owner.old.port ≡ port.now.queue }
    ensures { owner.new.port ≡ owner.old.port }
{
    let mut consumed: u64 = 0;
    for _ in rt.forever() {
        if consumed >= times {
            return consumed;
        }
        match owner.take(rt, port, classes) {
            Ok(Taken::Consumed(_)) => consumed = consumed.wrapping_add(1),
            _ => thread::yield_now(),
        }
    }
    unreachable!()
}

/// Puts so many signals of two senders, each in a thread of its own; those of the second have this name. A fault in one
/// thread doesn't stop the other, and both are joined.
pub fn put_by_two<R: Threads + Wait + Sync>(
    rt: &R,
    alloc: Global,
    port: &Port,
    senders: (Sender, Sender),
    name: u32,
    each: u64,
) -> (Result<Sent, Fault>, Result<Sent, Fault>)
    requires { (senders.0.port ≡ port.now.queue) × (senders.1.port ≡ port.now.queue) }
    ensures first { IfOk result.0 (λ sent. sent.sender.port ≡ port.now.queue) }
    ensures second { IfOk result.1 (λ sent. sent.sender.port ≡ port.now.queue) }
{
    let (first, second) = senders;
    thread::join(
        rt,
        move || -> Result<Sent, Fault>
            requires { first.port ≡ port.now.queue }
            ensures { IfOk result (λ sent. sent.sender.port ≡ port.entry.now.queue) }
        { put_values(rt, alloc, port, first, 0, each) },
        move || -> Result<Sent, Fault>
            requires { second.port ≡ port.now.queue }
            ensures { IfOk result (λ sent. sent.sender.port ≡ port.entry.now.queue) }
        { put_values(rt, alloc, port, second, name, each) },
    )
}

/// Puts by four threads, so many each. The answer is whether all were put.
fn put_by_four<R: Threads + Wait + Sync>(
    rt: &R,
    alloc: Global,
    port: &Port,
    early: (Sender, Sender),
    late: (Sender, Sender),
    each: u64,
) -> bool
    requires early { (early.0.port ≡ port.now.queue) × (early.1.port ≡ port.now.queue) }
    requires late { (late.0.port ≡ port.now.queue) × (late.1.port ≡ port.now.queue) }
{
    let (one, other) = thread::join(
        rt,
        move || -> bool
            requires { (early.0.port ≡ port.now.queue) × (early.1.port ≡ port.now.queue) }
        { have_put(&put_by_two(rt, alloc, port, early, 0, each)) },
        move || -> bool
            requires { (late.0.port ≡ port.now.queue) × (late.1.port ≡ port.now.queue) }
        { have_put(&put_by_two(rt, alloc, port, late, 0, each)) },
    );
    one && other
}

/// Whether two senders have put all of their signals.
fn have_put(sent: &(Result<Sent, Fault>, Result<Sent, Fault>)) -> bool {
    sent.0.is_ok() && sent.1.is_ok()
}

/// Puts by four threads, so many each, and takes by the owner in a fifth.
fn raced<R: Threads + Wait + Sync>(
    rt: &R,
    alloc: Global,
    port: &Port,
    mut owner: Owner,
    early: (Sender, Sender),
    late: (Sender, Sender),
    inputs: &Selection,
    each: u64,
) -> u64
    requires owner { owner.port ≡ port.now.queue }
    requires early { (early.0.port ≡ port.now.queue) × (early.1.port ≡ port.now.queue) }
    requires late { (late.0.port ≡ port.now.queue) × (late.1.port ≡ port.now.queue) }
{
    let (taken, _) = thread::join(
        rt,
        move || -> u64
            requires { owner.port ≡ port.now.queue }
        { take_many(rt, port, &mut owner, inputs, each.saturating_mul(4)) },
        move || -> bool
            requires early { (early.0.port ≡ port.now.queue) × (early.1.port ≡ port.now.queue) }
            requires late { (late.0.port ≡ port.now.queue) × (late.1.port ≡ port.now.queue) }
        { put_by_four(rt, alloc, port, early, late, each) },
    );
    taken
}

/// Puts by four threads, a quarter each, and takes by the owner in a fifth.
pub fn puts_by_four<R: Threads + Wait + Sync>(
    rt: &R,
    alloc: Global,
    times: u64,
    retried: &mut Option<Call>,
) -> Result<u64, Fault> {
    let inputs = selection(alloc, &[Class::Input])?;
    let NewPort {
        port,
        owner,
        mut desk,
    } = open(alloc, retried)?;
    let first = next_sender(&port, &mut desk);
    let second = next_sender(&port, &mut desk);
    let third = next_sender(&port, &mut desk);
    let fourth = next_sender(&port, &mut desk);
    let (early, late) = ((first, second), (third, fourth));
    Ok(raced(rt, alloc, &port, owner, early, late, &inputs, times / 4))
}

/// Sets so many timers and lets each expire, and gives how many entries are left at the end.
pub fn finishes<R: Wait>(
    rt: &R,
    alloc: Global,
    times: u64,
    retried: &mut Option<Call>,
) -> Result<u64, Fault> {
    let NewPort {
        port,
        mut owner,
        mut desk,
    } = open(alloc, retried)?;
    let sender = next_sender(&port, &mut desk);
    if expire_each(rt, alloc, &port, &mut owner, sender, times).is_none() {
        return Err(Fault::Memory);
    }
    let end = finish(rt, &port, owner, retried)?;
    Ok(end.entries().len() as u64)
}

/// Sets so many timers, and lets each expire at once.
fn expire_each<R: Wait>(
    rt: &R,
    alloc: Global,
    port: &Port,
    owner: &mut Owner,
    mut sender: Sender,
    times: u64,
) -> Option<()>
    requires owner { owner.old.port ≡ port.now.queue }
    requires sender { sender.port ≡ port.now.queue }
    ensures { owner.new.port ≡ owner.old.port }
{
    for value in 0..times {
        let fuse = owner.set(key(alloc, value)?, Ticks::new(value)).ok()?;
        let due = fuse.due();
        sender.expire(rt, port, fuse, due).ok()?;
    }
    Some(())
}
