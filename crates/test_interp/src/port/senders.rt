//! Several senders and one owner, in one thread and in several.

ghost use Rattle.std.specs.Prelude.{◌≡◌};
ghost use Rattle.std.specs.Thread.{IsSync};

use crate::port::calls::{
    consumed, expect_empty, expect_takes, gather, item, put, selection, with_sender,
};
use input_port::birth::port;
use input_port::{NewPort, Owner, Port, Sender};
use port_model::{Class, PortError, Selection};
use std::alloc::Global;
use std::process::Abort;
use std::sync::Wait;
use std::thread;
use std::thread::Threads;

/// The number of a sender, and how many signals it has sent.
fn told(sender: &Sender) -> (u32, u64) {
    (sender.number().get(), sender.sent())
}

/// Puts signals of one name with the values 1 to `times`.
fn put_values<R: Wait + Abort>(
    rt: &R,
    alloc: Global,
    port: &Port,
    mut sender: Sender,
    name: u32,
    times: i64,
) -> Sender
    requires { sender.port ≡ port.now.queue }
    ensures { result.port ≡ port.now.queue }
{
    for value in 0..times {
        let item = item(rt, alloc, name, value.wrapping_add(1));
        assert!(rt; sender.put(rt, port, item).is_ok());
    }
    sender
}

/// Puts the signals of two senders, each in a thread of its own.
fn put_by_two<R: Threads + Wait + Abort + Sync>(
    rt: &R,
    alloc: Global,
    port: &Port,
    senders: (Sender, Sender),
    names: (u32, u32),
    times: i64,
) -> (Sender, Sender)
    requires { (senders.0.port ≡ port.now.queue) × (senders.1.port ≡ port.now.queue) }
    ensures { (result.0.port ≡ port.now.queue) × (result.1.port ≡ port.now.queue) }
{
    let (first, second) = senders;
    thread::join(
        rt,
        move || -> Sender
            requires { first.port ≡ port.now.queue }
            ensures { result.port ≡ port.entry.now.queue }
        { put_values(rt, alloc, port, first, names.0, times) },
        move || -> Sender
            requires { second.port ≡ port.now.queue }
            ensures { result.port ≡ port.entry.now.queue }
        { put_values(rt, alloc, port, second, names.1, times) },
    )
}

/// An owner meets a sender.
fn meet_one<R: Wait + Abort>(rt: &R, port: &Port, owner: &mut Owner, sender: Sender) -> Sender
    requires owner { owner.old.port ≡ port.now.queue }
    requires sender { sender.port ≡ port.now.queue }
    ensures owner { owner.new.port ≡ owner.old.port }
    ensures sender { result.port ≡ port.now.queue }
{
    match owner.meet(rt, port, sender) {
        Ok(sender) => sender,
        Err(_) => panic!(rt; "no memory to meet"),
    }
}

#[test]
fn meet(rt: HostRuntime) {
    let alloc = rt.alloc();
    let inputs = selection(&rt, alloc, &[Class::Input]);
    let (port, mut owner, mut sender) = with_sender(&rt, alloc, 1);
    put(&rt, alloc, &port, &mut sender, &[(0, 1), (0, 2)]);
    expect_takes(&rt, &port, &mut owner, &inputs, &[(0, 1)]);
    let mut sender = meet_one(&rt, &port, &mut owner, sender);
    assert!(rt; told(&sender) == (1, 2));
    put(&rt, alloc, &port, &mut sender, &[(0, 3)]);
    gather(&rt, &port, &mut owner, sender);
    assert!(rt; owner.gathered() == 1);
    expect_takes(&rt, &port, &mut owner, &inputs, &[(0, 2), (0, 3)]);
    expect_empty(&rt, &port, owner, &inputs);
}

#[test]
fn refuses_the_1002nd_sender(rt: HostRuntime) {
    let NewPort {
        port,
        owner,
        mut desk,
    } = port(rt.alloc(), 1).expect(&rt, "memory");
    drop(owner);
    for number in 1..1002 {
        assert!(rt; desk.sender(&port).map(|s| s.number().get()) == Ok(number));
    }
    assert!(rt; desk.sender(&port).err() == Some(PortError::TooManySenders));
    assert!(rt; (desk.given(), port.pid()) == (1001, 1));
}

const PUTS: i64 = 10_000;

/// Puts the signals of four senders, each in a thread of its own, and answers how many each has sent.
fn put_by_four<R: Threads + Wait + Abort + Sync>(
    rt: &R,
    alloc: Global,
    port: &Port,
    early: (Sender, Sender),
    late: (Sender, Sender),
) -> [u64; 4]
    requires early { (early.0.port ≡ port.now.queue) × (early.1.port ≡ port.now.queue) }
    requires late { (late.0.port ≡ port.now.queue) × (late.1.port ≡ port.now.queue) }
{
    let ((a, b), (c, d)) = thread::join(
        rt,
        move || -> (Sender, Sender)
            requires { IsSync R.row × (early.0.port ≡ port.now.queue) × (early.1.port ≡ port.now.queue) }
        { put_by_two(rt, alloc, port, early, (0, 1), PUTS) },
        move || -> (Sender, Sender)
            requires { IsSync R.row × (late.0.port ≡ port.now.queue) × (late.1.port ≡ port.now.queue) }
        { put_by_two(rt, alloc, port, late, (2, 3), PUTS) },
    );
    [a.sent(), b.sent(), c.sent(), d.sent()]
}

/// Takes until the last value of each of four senders was consumed, and counts those that were not the next of their
/// sender.
fn take_all<R: Wait>(rt: &R, port: &Port, mut owner: Owner, inputs: &Selection) -> u32
    requires { owner.port ≡ port.now.queue }
{
    let mut last = [0; 4];
    let mut wrong: u32 = 0;
    for _ in rt.forever() {
        if last == [PUTS; 4] {
            return wrong;
        }
        match consumed(owner.take(rt, port, inputs)) {
            None => thread::yield_now(),
            Some((name, value)) => match last.get_mut(name as usize) {
                Some(last) if value == last.wrapping_add(1) => *last = value,
                _ => wrong = wrong.saturating_add(1),
            },
        }
    }
    unreachable!()
}

/// While four senders put, their owner takes: how many takes were wrong, and how many signals each sender has sent.
fn take_while_they_put<R: Threads + Wait + Abort + Sync>(
    rt: &R,
    alloc: Global,
    port: &Port,
    owner: Owner,
    early: (Sender, Sender),
    late: (Sender, Sender),
) -> (u32, [u64; 4])
    requires owner { owner.port ≡ port.now.queue }
    requires early { (early.0.port ≡ port.now.queue) × (early.1.port ≡ port.now.queue) }
    requires late { (late.0.port ≡ port.now.queue) × (late.1.port ≡ port.now.queue) }
{
    let inputs = selection(rt, alloc, &[Class::Input; 4]);
    let classes = &inputs;
    thread::join(
        rt,
        move || -> u32
            requires { owner.port ≡ port.now.queue }
        { take_all(rt, port, owner, classes) },
        move || -> [u64; 4]
            requires early { IsSync R.row × (early.0.port ≡ port.now.queue) × (early.1.port ≡ port.now.queue) }
            requires late { (late.0.port ≡ port.now.queue) × (late.1.port ≡ port.now.queue) }
        { put_by_four(rt, alloc, port, early, late) },
    )
}

#[test]
fn four_senders_and_an_owner(rt: HostRuntime) {
    let alloc = rt.alloc();
    let NewPort {
        port,
        owner,
        mut desk,
    } = port(alloc, 1).expect(&rt, "memory");
    let first = desk.sender(&port).expect(&rt, "a sender");
    let second = desk.sender(&port).expect(&rt, "a sender");
    let third = desk.sender(&port).expect(&rt, "a sender");
    let fourth = desk.sender(&port).expect(&rt, "a sender");
    let (early, late) = ((first, second), (third, fourth));
    let (wrong, sent) = take_while_they_put(&rt, alloc, &port, owner, early, late);
    assert!(rt; (wrong, sent) == (0, [10_000; 4]));
}
