//! Rows of calls of a shared port, in which each call must answer as the row says.

ghost use Rattle.std.specs.Prelude.{◌≡◌, IfOk};

use crate::alone::selection;
use crate::call::Call;
use crate::fault::Fault;
use crate::retry::{finish, finish_stopped, gather, next_sender, open, take};
use crate::shared::{Sent, put_by_two};
use crate::signals::{consumed, expect_left, expect_nothing, expect_takes, put_each};
use input_port::{NewPort, Owner, Port};
use port_model::{Class, Selection};
use std::alloc::Global;
use std::sync::Wait;
use std::thread::Threads;

/// Two senders put so many signals each in two threads, and the owner gathers both and takes.
pub fn two_senders<R: Threads + Wait + Sync>(
    rt: &R,
    alloc: Global,
    each: u64,
    retried: &mut Option<Call>,
) -> Result<u64, Fault> {
    let NewPort {
        port,
        mut owner,
        mut desk,
    } = open(alloc, retried)?;
    let first = next_sender(&port, &mut desk);
    let second = next_sender(&port, &mut desk);
    let (first, second) = put_by_two(rt, alloc, &port, (first, second), 1, each);
    gather_sent(rt, &port, &mut owner, first, retried)?;
    gather_sent(rt, &port, &mut owner, second, retried)?;
    take_all(rt, alloc, &port, owner, each, retried)?;
    Ok(each.saturating_mul(2))
}

/// Gathers a sender after its puts.
fn gather_sent<R: Wait>(
    rt: &R,
    port: &Port,
    owner: &mut Owner,
    sent: Result<Sent, Fault>,
    retried: &mut Option<Call>,
) -> Result<(), Fault>
    requires owner { owner.old.port ≡ port.now.queue }
    requires sender { IfOk sent (λ is. is.sender.port ≡ port.now.queue) }
    ensures { owner.new.port ≡ owner.old.port }
{
    let sent = sent?;
    if let Some(call) = sent.retried {
        call.retry(retried)?;
    }
    gather(rt, port, owner, sent.sender, retried)
}

/// Takes the signals of both senders. After them nothing is there, and nothing is left.
fn take_all<R: Wait>(
    rt: &R,
    alloc: Global,
    port: &Port,
    mut owner: Owner,
    each: u64,
    retried: &mut Option<Call>,
) -> Result<(), Fault>
    requires { owner.port ≡ port.now.queue }
{
    let inputs = selection(alloc, &[Class::Input, Class::Input])?;
    take_values(rt, port, &mut owner, &inputs, each, retried)?;
    expect_nothing(rt, port, &mut owner, &inputs, retried)?;
    let end = finish(rt, port, owner, retried)?;
    expect_left(&end, &[])
}

/// Takes so many signals of each sender. Each is the next of its sender, in whatever order those of the two come.
fn take_values<R: Wait>(
    rt: &R,
    port: &Port,
    owner: &mut Owner,
    inputs: &Selection,
    each: u64,
    retried: &mut Option<Call>,
) -> Result<(), Fault>
    requires { owner.old.port ≡ port.now.queue }
    ensures { owner.new.port ≡ owner.old.port }
{
    let mut last: [i64; 2] = [0, 0];
    for _ in 0..each.saturating_mul(2) {
        let taken = take(rt, port, owner, inputs, retried)?;
        if !is_next(&mut last, consumed(&taken)) {
            return Err(Fault::Wrong);
        }
    }
    if last == [each.cast_signed(); 2] {
        Ok(())
    } else {
        Err(Fault::Wrong)
    }
}

/// Whether a signal is the next of its sender. Notes its value as the last one of its name.
fn is_next(last: &mut [i64; 2], signal: Option<(u32, i64)>) -> bool {
    let Some((name, value)) = signal else {
        return false;
    };
    match last.get_mut(name as usize) {
        Some(last) if value == last.wrapping_add(1) => {
            *last = value;
            true
        }
        _ => false,
    }
}

/// What was put and not drawn before a stop, and what is put after it, is left at the end. So many times.
pub fn stop_and_workers<R: Wait>(
    rt: &R,
    alloc: Global,
    times: u64,
    retried: &mut Option<Call>,
) -> Result<u64, Fault> {
    for _ in 0..times {
        stop_once(rt, alloc, retried)?;
    }
    Ok(times)
}

fn stop_once<R: Wait>(rt: &R, alloc: Global, retried: &mut Option<Call>) -> Result<(), Fault> {
    let NewPort {
        port,
        owner,
        mut desk,
    } = open(alloc, retried)?;
    let mut sender = next_sender(&port, &mut desk);
    put_each(rt, alloc, &port, &mut sender, &[(5, 1), (6, 2)], retried)?;
    let retired = owner.stop();
    put_each(rt, alloc, &port, &mut sender, &[(7, 3)], retried)?;
    let end = finish_stopped(rt, &port, retired, retried)?;
    expect_left(&end, &[(5, 1), (6, 2), (7, 3)])
}

/// What a state saves stays for one that takes it. So many times.
pub fn save_in_port<R: Wait>(
    rt: &R,
    alloc: Global,
    times: u64,
    retried: &mut Option<Call>,
) -> Result<u64, Fault> {
    for _ in 0..times {
        save_once(rt, alloc, retried)?;
    }
    Ok(times)
}

/// Takes in a state that saves name 0, and then in one that has inputs of both names.
fn save_once<R: Wait>(rt: &R, alloc: Global, retried: &mut Option<Call>) -> Result<(), Fault> {
    let saves = selection(alloc, &[Class::Saved, Class::Input])?;
    let inputs = selection(alloc, &[Class::Input, Class::Input])?;
    let NewPort {
        port,
        mut owner,
        mut desk,
    } = open(alloc, retried)?;
    let mut sender = next_sender(&port, &mut desk);
    let signals = [(0, 1), (1, 2), (0, 3), (1, 4)];
    put_each(rt, alloc, &port, &mut sender, &signals, retried)?;
    expect_takes(rt, &port, &mut owner, &saves, &[(1, 2), (1, 4)], retried)?;
    expect_nothing(rt, &port, &mut owner, &saves, retried)?;
    expect_takes(rt, &port, &mut owner, &inputs, &[(0, 1), (0, 3)], retried)
}
