//! Senders alone.

ghost use Rattle.std.specs.Prelude.{◌≡◌, [], true};
ghost use Rattle.threads_ports.specs.Peers.{is_known};

use crate::port::calls;
use crate::port::calls::{key, with_sender};
use crate::port::peer_ends::{expect_drawn, item};
use input_port::{Owner, Port, Sender};
use port_model::{Fuse, Ticks};
use std::alloc::Global;
use std::marker::Brand;
use std::process::Abort;
use std::sync::Wait;
use threads_ports::{NotPut, Peers, Run};

#[test]
fn puts_to_another(rt: HostRuntime) {
    let alloc = rt.alloc();
    let (port, owner, sender) = with_sender(&rt, alloc, 2);
    puts_one::<Brand, _>(&rt, alloc, &port, owner, sender);
}

fn puts_one<J: Run, R: Wait + Abort>(
    rt: &R,
    alloc: Global,
    port: &Port,
    owner: Owner,
    sender: Sender,
)
    requires named { port.now.queue ≡ J.ports 2 }
    requires owner { owner.port ≡ port.now.queue }
    requires sender { sender.port ≡ port.now.queue }
    requires fresh { sender.seen ≡ [] }
{
    let mut peers = Peers::<J>::new(alloc);
    comes_back(rt, alloc, port, &mut peers);
    open(rt, &mut peers, 2, sender);
    put(rt, alloc, port, &mut peers);
    let sender = release(rt, peers);
    expect_drawn(rt, port, owner, sender, 1);
}

/// Without a sender a signal comes back with its values, and nothing is put.
fn comes_back<J: Run, R: Wait + Abort>(rt: &R, alloc: Global, port: &Port, peers: &mut Peers<J>)
    requires { port.now.queue ≡ J.ports 2 }
{
    let item = calls::item(rt, alloc, 5, 7);
    let Err(NotPut::Unknown(back)) = peers.put(rt, port, 2, item) else {
        panic!(rt; "a signal is put without a sender");
    };
    assert!(rt; calls::shown(&back) == (5, 7));
    assert!(rt; !peers.is_known(2) && peers.sent(2) == 0);
}

/// A sender is added that was not known.
fn open<J: Run>(rt: &impl Abort, peers: &mut Peers<J>, number: u32, sender: Sender)
    requires port { sender.port ≡ J.ports number }
    requires fresh { sender.seen ≡ [] }
    ensures { is_known peers.new number ≡ true }
{
    assert!(rt; !peers.is_known(number));
    assert!(rt; peers.open(number, sender).is_ok());
}

/// The sender into the port of instance 2 puts its first signal.
fn put<J: Run, R: Wait + Abort>(rt: &R, alloc: Global, port: &Port, peers: &mut Peers<J>)
    requires known { is_known peers.old 2 ≡ true }
    requires port { port.now.queue ≡ J.ports 2 }
{
    assert!(rt; peers.put(rt, port, 2, item(alloc)).is_ok());
    assert!(rt; peers.is_known(2) && peers.sent(2) == 1 && peers.sent(3) == 0);
}

/// The one sender, which is that into the port of instance 2.
fn release<J: Run>(rt: &impl Abort, mut peers: Peers<J>) -> Sender
    ensures { result.port ≡ J.ports 2 }
{
    let Some(peer) = peers.release() else {
        panic!(rt; "a sender is lost");
    };
    assert!(rt; peer.number == 2);
    assert!(rt; peers.release().is_none());
    peer.sender
}

/// A sender is taken by its number.
#[test]
fn takes_by_number(rt: HostRuntime) {
    let alloc = rt.alloc();
    let (port, owner, sender) = with_sender(&rt, alloc, 2);
    takes::<Brand, _>(&rt, alloc, &port, owner, sender);
}

fn takes<J: Run, R: Wait + Abort>(rt: &R, alloc: Global, port: &Port, owner: Owner, sender: Sender)
    requires named { port.now.queue ≡ J.ports 2 }
    requires owner { owner.port ≡ port.now.queue }
    requires sender { sender.port ≡ port.now.queue }
    requires fresh { sender.seen ≡ [] }
{
    let mut peers = Peers::<J>::new(alloc);
    open(rt, &mut peers, 2, sender);
    put(rt, alloc, port, &mut peers);
    assert!(rt; peers.take(3).is_none());
    let sender = peers.take(2).expect(rt, "the sender");
    assert!(rt; !peers.is_known(2) && peers.sent(2) == 0);
    expect_drawn(rt, port, owner, sender, 1);
}

#[test]
fn expires_into_its_own_port(rt: HostRuntime) {
    let alloc = rt.alloc();
    let (port, owner, sender) = with_sender(&rt, alloc, 1);
    expires::<Brand, _>(&rt, alloc, &port, owner, sender);
}

fn expires<J: Run, R: Wait + Abort>(
    rt: &R,
    alloc: Global,
    port: &Port,
    mut owner: Owner,
    sender: Sender,
)
    requires named { port.now.queue ≡ J.ports 1 }
    requires owner { owner.port ≡ port.now.queue }
    requires sender { sender.port ≡ port.now.queue }
    requires fresh { sender.seen ≡ [] }
{
    let fuse = owner.set(key(alloc, 6), Ticks::new(5)).expect(rt, "memory");
    let mut peers = Peers::<J>::new(alloc);
    open(rt, &mut peers, 1, sender);
    burn(rt, port, &mut peers, fuse);
}

/// The fuse of a timer of instance 1 burns down into its port, which is no signal that was put.
fn burn<J: Run, R: Wait + Abort>(rt: &R, port: &Port, peers: &mut Peers<J>, fuse: Fuse)
    requires known { is_known peers.old 1 ≡ true }
    requires port { port.now.queue ≡ J.ports 1 }
{
    assert!(rt; fuse.due() <= Ticks::new(7));
    assert!(rt; peers.expire(rt, port, 1, fuse, Ticks::new(7)).is_ok());
    assert!(rt; peers.sent(1) == 0);
}
