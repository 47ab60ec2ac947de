//! What a take passes over: what has no priority, and expiries of sets that are past.

ghost use Rattle.std.specs.Prelude.{◌≡◌};

use crate::port::calls::{
    expect_all, expect_nothing, expect_takes, expire, key, put, selection, with_sender,
};
use input_port::Owner;
use port_model::{Class, Fuse, Ticks};
use std::alloc::Global;
use std::process::Abort;

#[test]
fn priority_port(rt: HostRuntime) {
    let alloc = rt.alloc();
    let classes = selection(&rt, alloc, &[Class::Input, Class::Priority]);
    let (port, mut owner, mut sender) = with_sender(&rt, alloc, 1);
    put(&rt, alloc, &port, &mut sender, &[(0, 1), (1, 2), (0, 3)]);
    let taken = [(1, 2), (0, 1), (0, 3)];
    expect_all(&rt, &port, &mut owner, &classes, &taken);
}

/// Sets timer 2 two times.
fn set_twice(rt: &impl Abort, alloc: Global, owner: &mut Owner) -> (Fuse, Fuse)
    ensures { owner.new.port ≡ owner.old.port }
{
    let old = owner.set(key(alloc, 2), Ticks::new(5)).expect(rt, "memory");
    let new = owner.set(key(alloc, 2), Ticks::new(5)).expect(rt, "memory");
    assert!(rt; (old.pid(), old.arm().get(), new.arm().get(), new.due().get()) == (7, 1, 2, 5));
    (old, new)
}

#[test]
fn expires_its_own_sets_alone(rt: HostRuntime) {
    let alloc = rt.alloc();
    let inputs = selection(&rt, alloc, &[Class::Discard, Class::Discard, Class::Input]);
    let (port, mut owner, mut sender) = with_sender(&rt, alloc, 7);
    let (old, new) = set_twice(&rt, alloc, &mut owner);
    expire(&rt, &port, &mut sender, old, 5);
    expect_nothing(&rt, &port, &mut owner, &inputs);
    expire(&rt, &port, &mut sender, new, 6);
    assert!(rt; owner.active(&key(alloc, 2)));
    expect_takes(&rt, &port, &mut owner, &inputs, &[(2, 0)]);
    assert!(rt; !owner.active(&key(alloc, 2)) && sender.sent() == 0);
}
