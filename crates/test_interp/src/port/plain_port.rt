//! The port of one thread: puts, takes, timers, and what waits at the end.

use crate::port::calls::{item, selection};
use port_model::{
    Arm, Class, Got, Item, Pid, PlainPort, PortParts, SignalId, Taken, Ticks, TimerKey, Value,
    Values,
};
use std::alloc::Global;
use std::process::Abort;

const INPUTS: [Class; 2] = [Class::Input, Class::Input];

/// The result of a take, by the name and the one value of the signal or timer.
#[derive(Clone, Copy, PartialEq)]
enum Told {
    Consumed(u32, Option<Value>),
    Discarded(u32, Option<Value>),
    Nothing,
}

fn name_and_value(got: &Got) -> (u32, Option<Value>) {
    match got {
        Got::Signal(item) => (item.name.0, item.values.get(0)),
        Got::Timer(key) => (key.name.0, key.values.get(0)),
    }
}

fn summary(taken: &Taken) -> Told {
    match taken {
        Taken::Consumed(got) => {
            let (name, value) = name_and_value(got);
            Told::Consumed(name, value)
        }
        Taken::Discarded(got) => {
            let (name, value) = name_and_value(got);
            Told::Discarded(name, value)
        }
        Taken::Nothing => Told::Nothing,
    }
}

fn consumed(name: u32, number: i64) -> Told {
    Told::Consumed(name, Some(Value::Int(number)))
}

fn discarded(name: u32, number: i64) -> Told {
    Told::Discarded(name, Some(Value::Int(number)))
}

fn put(rt: &impl Abort, alloc: Global, port: &mut PlainPort, name: u32, number: i64) {
    assert!(rt; port.put(item(rt, alloc, name, number)).is_ok());
}

/// A port that holds signals 0, 1, 0, 1 with the values 1, 2, 3, 4.
fn four(rt: &impl Abort, alloc: Global) -> PlainPort {
    let mut port = PlainPort::new(alloc);
    put(rt, alloc, &mut port, 0, 1);
    put(rt, alloc, &mut port, 1, 2);
    put(rt, alloc, &mut port, 0, 3);
    put(rt, alloc, &mut port, 1, 4);
    port
}

/// Takes as often as something is expected, and compares.
fn expect_takes(
    rt: &impl Abort,
    alloc: Global,
    port: &mut PlainPort,
    classes: [Class; 2],
    expected: &[Told],
) {
    let selection = selection(rt, alloc, &classes);
    for told_there in expected {
        let taken = port.take(&selection);
        assert!(rt; summary(&taken) == *told_there);
    }
}

#[test]
fn saved_signals_stay_and_come_in_order(rt: HostRuntime) {
    let alloc = rt.alloc();
    let mut port = four(&rt, alloc);
    let saving = [consumed(1, 2), consumed(1, 4), Told::Nothing];
    expect_takes(&rt, alloc, &mut port, [Class::Saved, Class::Input], &saving);
    let both = [consumed(0, 1), consumed(0, 3), Told::Nothing];
    expect_takes(&rt, alloc, &mut port, INPUTS, &both);
}

#[test]
fn a_priority_input_comes_before_all(rt: HostRuntime) {
    let alloc = rt.alloc();
    let mut port = four(&rt, alloc);
    let classes = [Class::Input, Class::Priority];
    let urgent = [
        consumed(1, 2),
        consumed(1, 4),
        consumed(0, 1),
        consumed(0, 3),
    ];
    expect_takes(&rt, alloc, &mut port, classes, &urgent);
}

#[test]
fn what_no_input_names_is_discarded(rt: HostRuntime) {
    let alloc = rt.alloc();
    let mut port = four(&rt, alloc);
    put(&rt, alloc, &mut port, 7, 5);
    let lost = [
        consumed(0, 1),
        discarded(1, 2),
        consumed(0, 3),
        discarded(1, 4),
        discarded(7, 5),
        Told::Nothing,
    ];
    expect_takes(&rt, alloc, &mut port, [Class::Input, Class::Discard], &lost);
}

#[test]
fn a_stopped_port_drops_what_comes(rt: HostRuntime) {
    let alloc = rt.alloc();
    let mut port = four(&rt, alloc);
    port.stop();
    put(&rt, alloc, &mut port, 0, 5);
    expect_takes(&rt, alloc, &mut port, INPUTS, &[Told::Nothing]);
}

fn key(rt: &impl Abort, alloc: Global, number: i64) -> TimerKey {
    TimerKey {
        name: SignalId(0),
        values: Values::from_slice(alloc, &[Value::Int(number)]).expect(rt, "memory"),
    }
}

/// Sets a timer by a copy of its key.
fn set(rt: &impl Abort, port: &mut PlainPort, key: &TimerKey, due: u64) -> u64 {
    port.set(key.copied().expect(rt, "memory"), Ticks::new(due))
        .expect(rt, "memory")
        .get()
}

/// Expires a timer by a copy of its key.
fn expire(
    rt: &impl Abort,
    port: &mut PlainPort,
    key: &TimerKey,
    arm: u64,
    due: u64,
    at: u64,
) -> bool {
    let (arm, due, at) = (Arm::new(arm), Ticks::new(due), Ticks::new(at));
    port.expire(key.copied().expect(rt, "memory"), arm, due, at)
        .ok()
        .expect(rt, "memory")
}

/// Compares when the next timer is due.
fn expect_due(rt: &impl Abort, port: &PlainPort, expected: Option<u64>) {
    let due = port.next_due().map(|due| due.get());
    assert!(rt; due == expected);
}

/// A port in which a timer is set for the time 10, for the first time.
fn one_set(rt: &impl Abort, alloc: Global, timer: &TimerKey) -> PlainPort {
    let mut port = PlainPort::new(alloc);
    assert!(rt; set(rt, &mut port, timer, 10) == 1);
    expect_due(rt, &port, Some(10));
    port
}

/// Lets the timer of `one_set` expire too early, in time and once more. It is active all the while.
fn expire_once(rt: &impl Abort, port: &mut PlainPort, timer: &TimerKey) {
    for (at, expires) in [(9, false), (10, true), (11, false)] {
        assert!(rt; expire(rt, port, timer, 1, 10, at) == expires);
        assert!(rt; port.active(timer));
    }
}

#[test]
fn a_timer_is_active_until_its_signal_is_taken(rt: HostRuntime) {
    let timer = key(&rt, rt.alloc(), 1);
    let mut port = one_set(&rt, rt.alloc(), &timer);
    expire_once(&rt, &mut port, &timer);
    expect_due(&rt, &port, None);
    let expected = [consumed(0, 1), Told::Nothing];
    expect_takes(&rt, rt.alloc(), &mut port, INPUTS, &expected);
    assert!(rt; !port.active(&timer));
}

#[test]
fn a_reset_takes_the_waiting_signal_too(rt: HostRuntime) {
    let timer = key(&rt, rt.alloc(), 1);
    let mut port = one_set(&rt, rt.alloc(), &timer);
    assert!(rt; expire(&rt, &mut port, &timer, 1, 10, 10));
    put(&rt, rt.alloc(), &mut port, 1, 2);
    port.reset(&timer);
    assert!(rt; !port.active(&timer));
    let expected = [consumed(1, 2), Told::Nothing];
    expect_takes(&rt, rt.alloc(), &mut port, INPUTS, &expected);
}

/// Sets a timer three times, of which the second set's fuse alone expires, as long as it is the last one.
fn set_thrice(rt: &impl Abort, port: &mut PlainPort, timer: &TimerKey) {
    for (arm, due) in [(1, 10), (2, 20), (3, 20)] {
        assert!(rt; set(rt, port, timer, due) == arm);
        assert!(rt; !expire(rt, port, timer, 1, 10, 9));
        assert!(rt; expire(rt, port, timer, 2, 20, 30) == (arm == 2));
    }
}

#[test]
fn a_set_ends_the_one_before(rt: HostRuntime) {
    let timer = key(&rt, rt.alloc(), 1);
    let mut port = PlainPort::new(rt.alloc());
    set_thrice(&rt, &mut port, &timer);
    expect_takes(&rt, rt.alloc(), &mut port, INPUTS, &[Told::Nothing]);
    expect_due(&rt, &port, Some(20));
}

/// Resets the second of two timers, which is due first.
fn reset_second(rt: &impl Abort, port: &mut PlainPort, first: &TimerKey, second: &TimerKey) {
    expect_due(rt, port, Some(5));
    port.reset(second);
    assert!(rt; port.active(first) && !port.active(second));
    expect_due(rt, port, Some(10));
}

#[test]
fn keys_of_one_name_are_told_apart(rt: HostRuntime) {
    let (first, second) = (key(&rt, rt.alloc(), 1), key(&rt, rt.alloc(), 2));
    let mut port = one_set(&rt, rt.alloc(), &first);
    set(&rt, &mut port, &second, 5);
    reset_second(&rt, &mut port, &first, &second);
}

#[test]
fn room_once_made_holds_one_entry(rt: HostRuntime) {
    let alloc = rt.alloc();
    let mut port = PlainPort::new(alloc);
    let timer = key(&rt, alloc, 1);
    let arm = set(&rt, &mut port, &timer, 10);
    let ten = Ticks::new(10);
    port.reserve().expect(&rt, "memory");
    assert!(rt; port.expire_reserved(timer, Arm::new(arm), ten, ten));
    port.reserve().expect(&rt, "memory");
    port.put_reserved(Item {
        name: SignalId(1),
        values: Values::none(alloc),
        sender: Pid::Null,
    });
    let expected = [consumed(0, 1), Told::Consumed(1, None)];
    expect_takes(&rt, alloc, &mut port, INPUTS, &expected);
}

/// A port in which the signal of this timer waits between two others: its first set was for the time 10.
fn three(rt: &impl Abort, alloc: Global, timer: &TimerKey) -> PlainPort {
    let mut port = PlainPort::new(alloc);
    put(rt, alloc, &mut port, 1, 2);
    let arm = set(rt, &mut port, timer, 10);
    assert!(rt; expire(rt, &mut port, timer, arm, 10, 10));
    put(rt, alloc, &mut port, 1, 3);
    port
}

#[test]
fn what_waits_comes_out_in_order(rt: HostRuntime) {
    let alloc = rt.alloc();
    let timer = key(&rt, alloc, 7);
    let port = three(&rt, alloc, &timer);
    assert!(rt; port.waiting_len() == 3);
    let PortParts { waiting, timers } = port.into_parts();
    assert!(rt; waiting.len() == 3);
    assert!(rt; name_and_value(&waiting[0]) == (1, Some(Value::Int(2))));
    assert!(rt; name_and_value(&waiting[2]) == (1, Some(Value::Int(3))));
    let armed = timers
        .get(&timer)
        .map(|kept| (kept.arm.get(), kept.due.get(), kept.waits));
    assert!(rt; armed == Some((1, 10, true)));
    assert!(rt; waiting[1] == Got::Timer(timer));
}
