//! The port of one thread with much in it.

use crate::signals::item;
use port_model::{
    Class, Got, PlainPort, Selection, SignalId, Taken, Ticks, TimerKey, Value, Values,
};
use std::alloc::{AllocError, Global};

/// The key of a timer with one value.
pub fn key(alloc: Global, value: u64) -> Option<TimerKey> {
    Some(TimerKey {
        name: SignalId(2),
        values: Values::from_slice(alloc, &[Value::Int(value.cast_signed())]).ok()?,
    })
}

/// A state that has these classes of the signals 0, 1 and 2.
pub fn selection(alloc: Global, classes: &[Class]) -> Result<Selection, AllocError> {
    Ok(Selection::new(classes.to_vec(alloc)?))
}

/// Ten takes after each of so many saved signals.
pub fn takes_past_saved(alloc: Global, times: u64) -> Option<u64> {
    let classes = selection(alloc, &[Class::Saved, Class::Input, Class::Input]).ok()?;
    takes_among(alloc, &classes, times, times.saturating_mul(10))
}

/// Takes in a state with a priority input, among so many ordinary signals.
pub fn takes_of_urgent(alloc: Global, times: u64) -> Option<u64> {
    let classes = selection(alloc, &[Class::Input, Class::Priority, Class::Input]).ok()?;
    takes_among(alloc, &classes, times, times)
}

/// Takes among so many signals of another name: how many consume one, if one is put before each.
fn takes_among(alloc: Global, classes: &Selection, others: u64, times: u64) -> Option<u64> {
    let mut port = PlainPort::new(alloc);
    fill(alloc, &mut port, others)?;
    let mut consumed: u64 = 0;
    for value in 0..times {
        port.put(item(alloc, 1, value.cast_signed())).ok()?;
        if let Taken::Consumed(Got::Signal(_)) = port.take(classes) {
            consumed = consumed.wrapping_add(1);
        }
    }
    Some(consumed)
}

/// Puts so many signals of the name 0.
fn fill(alloc: Global, port: &mut PlainPort, times: u64) -> Option<()> {
    for value in 0..times {
        port.put(item(alloc, 0, value.cast_signed())).ok()?;
    }
    Some(())
}

/// Ten sets and resets of a timer beside each of so many waiting signals.
pub fn sets_beside_waiting(alloc: Global, times: u64) -> Option<u64> {
    let mut port = PlainPort::new(alloc);
    fill(alloc, &mut port, times)?;
    let timer = key(alloc, 0)?;
    let mut done: u64 = 0;
    for value in 0..times.saturating_mul(10) {
        port.set(key(alloc, 0)?, Ticks::new(value)).ok()?;
        port.reset(&timer);
        done = done.wrapping_add(1);
    }
    Some(done)
}

/// Sets so many timers, sets each again, asks of each whether it is active, lets each expire, and takes each signal.
pub fn timers(alloc: Global, times: u64) -> Option<u64> {
    let classes = selection(alloc, &[Class::Input, Class::Input, Class::Input]).ok()?;
    let mut port = PlainPort::new(alloc);
    for value in 0..times {
        port.set(key(alloc, value)?, Ticks::new(value)).ok()?;
    }
    let active = expire_each(alloc, &mut port, times)?;
    Some(active.wrapping_add(take_each(&mut port, &classes, times)))
}

/// Sets each timer again and lets it expire, and gives how many of them were active.
fn expire_each(alloc: Global, port: &mut PlainPort, times: u64) -> Option<u64> {
    let mut active: u64 = 0;
    for value in 0..times {
        if port.active(&key(alloc, value)?) {
            active = active.wrapping_add(1);
        }
        let at = Ticks::new(value);
        let arm = port.set(key(alloc, value)?, at).ok()?;
        let due = port.next_due()?;
        port.expire(key(alloc, value)?, arm, due, at).ok()?;
    }
    Some(active)
}

/// How many of so many takes consume the signal of a timer.
fn take_each(port: &mut PlainPort, classes: &Selection, times: u64) -> u64 {
    let mut taken: u64 = 0;
    for _ in 0..times {
        if let Taken::Consumed(Got::Timer(_)) = port.take(classes) {
            taken = taken.wrapping_add(1);
        }
    }
    taken
}
