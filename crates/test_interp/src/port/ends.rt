//! What is left at the end of a port.

ghost use Rattle.std.specs.Prelude.{◌≡◌};

use crate::port::calls::{
    are_left, expect_all, expect_nothing, expect_takes, expire, finish, fuse, key, put, selection,
    with_sender,
};
use input_port::birth::port;
use input_port::{Held, NewPort, Owner, Port, Sender};
use port_model::{Class, Ticks};
use std::alloc::Global;
use std::process::Abort;
use std::sync::Wait;

/// A take that found a priority input's signal drawn draws nothing more; a drain draws all the same.
#[test]
fn drains(rt: HostRuntime) {
    let alloc = rt.alloc();
    let classes = selection(&rt, alloc, &[Class::Input, Class::Priority]);
    let (port, mut owner, mut sender) = with_sender(&rt, alloc, 1);
    put(&rt, alloc, &port, &mut sender, &[(1, 1), (1, 2), (0, 3)]);
    expect_takes(&rt, &port, &mut owner, &classes, &[(1, 1)]);
    assert!(rt; owner.drain(&rt, &port).is_ok());
    assert!(rt; owner.signals() == 3);
    let Ok(list) = owner.into_entries() else {
        panic!(rt; "no memory for the entries");
    };
    assert!(rt; are_left(&list, &[(1, 2), (0, 3)]));
}

/// A sender is gathered after the stop, and one puts after it.
#[test]
fn stop_and_workers(rt: HostRuntime) {
    let alloc = rt.alloc();
    let NewPort {
        port,
        owner,
        mut desk,
    } = port(alloc, 1).expect(&rt, "memory");
    let mut first = desk.sender(&port).expect(&rt, "a sender");
    let mut second = desk.sender(&port).expect(&rt, "a sender");
    put(&rt, alloc, &port, &mut first, &[(5, 1), (6, 2)]);
    let mut retired = owner.stop();
    put(&rt, alloc, &port, &mut second, &[(7, 3)]);
    assert!(rt; retired.gather(&rt, &port, first).is_ok());
    assert!(rt; retired.gathered() == 1);
    let Ok(end) = retired.finish(&rt, &port) else {
        panic!(rt; "no memory to finish");
    };
    assert!(rt; are_left(end.entries(), &[(5, 1), (6, 2), (7, 3)]));
}

/// Puts the signal (0, 1), the expiry of a timer 2 that was set for the time 5, and the signal (1, 2).
fn put_three<R: Wait + Abort>(
    rt: &R,
    alloc: Global,
    port: &Port,
    owner: &mut Owner,
    sender: &mut Sender,
)
    requires owner { owner.old.port ≡ port.now.queue }
    requires sender { sender.old.port ≡ port.now.queue }
    ensures owner { owner.new.port ≡ owner.old.port }
    ensures drawn { owner.new.drawn ≡ owner.old.drawn }
    ensures sender { sender.new.port ≡ sender.old.port }
{
    let expiring = owner.set(key(alloc, 2), Ticks::new(5)).expect(rt, "memory");
    put(rt, alloc, port, sender, &[(0, 1)]);
    expire(rt, port, sender, expiring, 6);
    put(rt, alloc, port, sender, &[(1, 2)]);
}

/// Entries that wait, drawn or not, come back in one order. A timer that is set and has not expired isn't among them.
#[test]
fn finish_gives_what_waits(rt: HostRuntime) {
    let alloc = rt.alloc();
    let saves = selection(&rt, alloc, &[Class::Saved, Class::Saved, Class::Saved]);
    let (port, mut owner, mut sender) = with_sender(&rt, alloc, 7);
    let _running = owner
        .set(key(alloc, 3), Ticks::new(9))
        .expect(&rt, "memory");
    put_three(&rt, alloc, &port, &mut owner, &mut sender);
    expect_nothing(&rt, &port, &mut owner, &saves);
    put(&rt, alloc, &port, &mut sender, &[(0, 3)]);
    let list = finish(&rt, &port, owner);
    assert!(rt; are_left(&list, &[(0, 1), (2, 0), (1, 2), (0, 3)]));
    assert!(rt; (fuse(&list, 0), fuse(&list, 1)) == (None, Some((7, 2, 5))));
}

/// A signal that was taken, and a timer's signal that was drawn and then reset, are not left.
#[test]
fn finish_leaves_out_what_is_gone(rt: HostRuntime) {
    let alloc = rt.alloc();
    let some = selection(&rt, alloc, &[Class::Input, Class::Saved, Class::Saved]);
    let (port, mut owner, mut sender) = with_sender(&rt, alloc, 7);
    put_three(&rt, alloc, &port, &mut owner, &mut sender);
    expect_all(&rt, &port, &mut owner, &some, &[(0, 1)]);
    owner.reset(&key(alloc, 2));
    assert!(rt; are_left(&finish(&rt, &port, owner), &[(1, 2)]));
}

#[test]
fn held_finishes_what_was_not_stopped(rt: HostRuntime) {
    let alloc = rt.alloc();
    let (port, mut owner, mut sender) = with_sender(&rt, alloc, 7);
    put_three(&rt, alloc, &port, &mut owner, &mut sender);
    let Ok(end) = Held::new(rt, &port, owner).finish() else {
        panic!(rt; "no memory to finish");
    };
    assert!(rt; are_left(end.entries(), &[(0, 1), (2, 0), (1, 2)]));
    assert!(rt; fuse(end.entries(), 1) == Some((7, 1, 5)));
}

/// An owner after its stop has drawn what it had drawn before, too: `drawn` stays at that.
#[test]
fn retired_tells_both_counts(rt: HostRuntime) {
    let alloc = rt.alloc();
    let (port, mut owner, mut sender) = with_sender(&rt, alloc, 7);
    put(&rt, alloc, &port, &mut sender, &[(0, 1), (1, 2)]);
    assert!(rt; owner.drain(&rt, &port).is_ok());
    let mut retired = owner.stop();
    put(&rt, alloc, &port, &mut sender, &[(2, 3)]);
    assert!(rt; retired.drain(&rt, &port).is_ok());
    assert!(rt; (retired.drawn(), retired.signals()) == (2, 3));
}
