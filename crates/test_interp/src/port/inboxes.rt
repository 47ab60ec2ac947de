//! The ports of one thread and of many as inboxes.

ghost use Rattle.std.specs.Prelude.{◌≡◌, true};

use crate::port::calls::{are_left, consumed, item, key, put, selection, with_sender};
use input_port::birth::port;
use input_port::{Held, NewPort};
use port_model::{Alone, Class, Fuse, Inbox, Ticks};
use std::alloc::Global;
use std::process::Abort;

/// Uses an inbox in which a signal waits: two timers are set, and one of them is reset. Gives what the inbox answers.
fn uses_inbox<P: Inbox>(
    rt: &impl Abort,
    alloc: Global,
    inbox: &mut P,
) -> (bool, Option<Ticks>, bool)
    requires { (P.owning inbox.old).state.alive ≡ true }
{
    let inputs = selection(rt, alloc, &[Class::Input]);
    let (first, second) = (key(alloc, 1), key(alloc, 2));
    inbox.set(key(alloc, 1), Ticks::new(5)).expect(rt, "memory");
    inbox.set(key(alloc, 2), Ticks::new(4)).expect(rt, "memory");
    inbox.reset(&second);
    let (active, due) = (inbox.active(&first), inbox.next_due());
    let taken = consumed(inbox.take(&inputs)) == Some((0, 1));
    inbox.stop();
    (active, due, taken)
}

#[test]
fn uses_alone(rt: HostRuntime) {
    let alloc = rt.alloc();
    let mut alone = Alone::new(alloc, 7);
    assert!(rt; alone.put(item(&rt, alloc, 0, 1)).is_ok());
    assert!(rt; uses_inbox(&rt, alloc, &mut alone) == (true, Some(Ticks::new(5)), true));
}

#[test]
fn uses_held(rt: HostRuntime) {
    let alloc = rt.alloc();
    let (port, owner, mut sender) = with_sender(&rt, alloc, 7);
    put(&rt, alloc, &port, &mut sender, &[(0, 1)]);
    let mut held = Held::new(rt, &port, owner);
    assert!(rt; !held.is_stopped() && held.least_due().is_none());
    assert!(rt; uses_inbox(&rt, alloc, &mut held) == (true, Some(Ticks::new(5)), true));
    assert!(rt; held.is_stopped() && held.least_due().is_none());
    put(&rt, alloc, &port, &mut sender, &[(3, 1)]);
    assert!(rt; held.drain().is_ok());
    assert!(rt; held.signals() == 2);
    let Ok(end) = held.finish() else {
        panic!(rt; "no memory to finish");
    };
    assert!(rt; are_left(end.entries(), &[(3, 1)]));
}

/// The senders of three entries: one is taken, and two are drawn after a stop.
#[test]
fn keeps_who_puts(rt: HostRuntime) {
    let alloc = rt.alloc();
    let NewPort {
        port,
        owner,
        mut desk,
    } = port(alloc, 7).expect(&rt, "memory");
    let mut first = desk.sender(&port).expect(&rt, "a sender");
    let mut second = desk.sender(&port).expect(&rt, "a sender");
    put(&rt, alloc, &port, &mut second, &[(0, 1)]);
    put(&rt, alloc, &port, &mut first, &[(0, 2)]);
    let mut held = Held::keeping(rt, &port, owner);
    let inputs = selection(&rt, alloc, &[Class::Input]);
    assert!(rt; consumed(held.take(&inputs)) == Some((0, 1)));
    assert!(rt; held.drawn() == Some(1));
    held.stop();
    put(&rt, alloc, &port, &mut second, &[(0, 3)]);
    assert!(rt; held.drain().is_ok());
    let puts = held.into_puts().expect(&rt, "memory");
    assert!(rt; puts.as_slice() == [2, 1, 2].as_slice());
}

/// Sets timer 2.
fn set(rt: &impl Abort, alloc: Global, port: &mut Alone, due: u64) -> Fuse
    requires { port.old.state.alive ≡ true }
    ensures { port.new.state.alive ≡ true }
{
    port.set(key(alloc, 2), Ticks::new(due))
        .expect(rt, "memory")
}

/// Whether an expiry at this time sends the timer's signal, and whether the port then consumes it.
fn expires(
    rt: &impl Abort,
    alloc: Global,
    port: &mut Alone,
    fuse: Fuse,
    at: u64,
) -> (Option<bool>, bool)
    requires { port.old.state.alive ≡ true }
    ensures { port.new.state.alive ≡ true }
{
    let inputs = selection(rt, alloc, &[Class::Discard, Class::Discard, Class::Input]);
    let sent = port.expire(fuse, Ticks::new(at)).ok();
    (sent, consumed(port.take(&inputs)) == Some((2, 0)))
}

/// A fuse of another port, two of sets that are past, and that of the last set, at its very time.
#[test]
fn alone_expires_its_own_sets(rt: HostRuntime) {
    let alloc = rt.alloc();
    let mut alone = Alone::new(alloc, 7);
    let mut other = Alone::new(alloc, 8);
    let past = set(&rt, alloc, &mut alone, 5);
    let foreign = set(&rt, alloc, &mut other, 5);
    assert!(rt; expires(&rt, alloc, &mut alone, foreign, 9) == (Some(false), false));
    let early = set(&rt, alloc, &mut alone, 5);
    let due = set(&rt, alloc, &mut alone, 6);
    assert!(rt; expires(&rt, alloc, &mut alone, past, 9) == (Some(false), false));
    assert!(rt; expires(&rt, alloc, &mut alone, early, 9) == (Some(false), false));
    assert!(rt; expires(&rt, alloc, &mut alone, due, 6) == (Some(true), true));
}
