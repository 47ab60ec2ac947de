//! Rows of calls, and what they give by names and first values.

ghost use Rattle.std.specs.Prelude.{◌≡◌, []};

use input_port::birth::port;
use input_port::{NewPort, Owner, Port, Sender};
use port_model::{
    Class, Entry, Fuse, Got, Item, Pid, PortError, Selection, SignalId, Taken, Ticks, TimerKey,
    Value, Values,
};
use std::alloc::Global;
use std::process::Abort;
use std::sync::Wait;

/// A port of this instance, its owner, and a sender that has put nothing.
pub fn with_sender(rt: &impl Abort, alloc: Global, pid: u32) -> (Port, Owner, Sender)
    ensures owner { result.1.port ≡ result.0.queue }
    ensures drawn { result.1.drawn ≡ [] }
    ensures sender { result.2.port ≡ result.0.queue }
    ensures fresh { result.2.seen ≡ [] }
{
    let NewPort {
        port,
        owner,
        mut desk,
    } = port(alloc, pid).expect(rt, "memory");
    let sender = desk.sender(&port).expect(rt, "a sender");
    (port, owner, sender)
}

pub fn item(rt: &impl Abort, alloc: Global, name: u32, value: i64) -> Item {
    Item {
        name: SignalId(name),
        values: Values::from_slice(alloc, &[Value::Int(value)]).expect(rt, "memory"),
        sender: Pid::Env,
    }
}

pub fn key(alloc: Global, name: u32) -> TimerKey {
    TimerKey {
        name: SignalId(name),
        values: Values::none(alloc),
    }
}

pub fn selection(rt: &impl Abort, alloc: Global, classes: &[Class]) -> Selection {
    Selection::new(classes.to_vec(alloc).expect(rt, "memory"))
}

/// The name and the first value of a signal.
pub fn shown(item: &Item) -> (u32, i64) {
    match item.values.get(0) {
        Some(Value::Int(value)) => (item.name.0, value),
        _ => (item.name.0, 0),
    }
}

/// The same of a signal that was consumed; of a timer its name, and 0.
pub fn consumed(taken: Result<Taken, PortError>) -> Option<(u32, i64)> {
    match taken {
        Ok(Taken::Consumed(Got::Signal(item))) => Some(shown(&item)),
        Ok(Taken::Consumed(Got::Timer(key))) => Some((key.name.0, 0)),
        _ => None,
    }
}

/// The same of an entry that is left.
fn left(entry: &Entry) -> (u32, i64) {
    match entry {
        Entry::Signal(item) => shown(item),
        Entry::Timer(fuse) => (fuse.key().name.0, 0),
    }
}

/// Whether just these are left, in this order.
pub fn are_left(list: &[Entry], wanted: &[(u32, i64)]) -> bool {
    list.iter().map(left).eq(wanted.iter().copied())
}

/// Of a timer's signal that is left: the port, the number of the set, and the due time.
pub fn fuse(list: &[Entry], index: usize) -> Option<(u32, u64, u64)> {
    match list.get(index)? {
        Entry::Signal(_) => None,
        Entry::Timer(fuse) => Some((fuse.pid(), fuse.arm().get(), fuse.due().get())),
    }
}

/// Puts signals of these names and values.
pub fn put<R: Wait + Abort>(
    rt: &R,
    alloc: Global,
    port: &Port,
    sender: &mut Sender,
    signals: &[(u32, i64)],
)
    requires { sender.old.port ≡ port.now.queue }
    ensures { sender.new.port ≡ sender.old.port }
{
    for (name, value) in signals {
        let item = item(rt, alloc, *name, *value);
        assert!(rt; sender.put(rt, port, item).is_ok());
    }
}

/// The next takes consume just these.
pub fn expect_takes<R: Wait + Abort>(
    rt: &R,
    port: &Port,
    owner: &mut Owner,
    selection: &Selection,
    wanted: &[(u32, i64)],
)
    requires { owner.old.port ≡ port.now.queue }
    ensures { owner.new.port ≡ owner.old.port }
{
    for signal in wanted {
        assert!(rt; consumed(owner.take(rt, port, selection)) == Some(*signal));
    }
}

/// A take finds nothing.
pub fn expect_nothing<R: Wait + Abort>(
    rt: &R,
    port: &Port,
    owner: &mut Owner,
    selection: &Selection,
)
    requires { owner.old.port ≡ port.now.queue }
    ensures { owner.new.port ≡ owner.old.port }
{
    assert!(rt; owner.take(rt, port, selection) == Ok(Taken::Nothing));
}

/// The next takes consume just these, and one more finds nothing.
pub fn expect_all<R: Wait + Abort>(
    rt: &R,
    port: &Port,
    owner: &mut Owner,
    selection: &Selection,
    wanted: &[(u32, i64)],
)
    requires { owner.old.port ≡ port.now.queue }
    ensures { owner.new.port ≡ owner.old.port }
{
    expect_takes(rt, port, owner, selection, wanted);
    expect_nothing(rt, port, owner, selection);
}

/// A fuse burns down at this time, which is not before its due time.
pub fn expire<R: Wait + Abort>(rt: &R, port: &Port, sender: &mut Sender, fuse: Fuse, at: u64)
    requires { sender.old.port ≡ port.now.queue }
    ensures { sender.new.port ≡ sender.old.port }
{
    let at = Ticks::new(at);
    let expired = fuse.due() <= at && sender.expire(rt, port, fuse, at).is_ok();
    assert!(rt; expired);
}

/// A sender is gathered.
pub fn gather<R: Wait + Abort>(rt: &R, port: &Port, owner: &mut Owner, sender: Sender)
    requires owner { owner.old.port ≡ port.now.queue }
    requires sender { sender.port ≡ port.now.queue }
    ensures { owner.new.port ≡ owner.old.port }
{
    assert!(rt; owner.gather(rt, port, sender).is_ok());
}

/// Finishes a port that was not stopped: what is left.
pub fn finish<R: Wait + Abort>(rt: &R, port: &Port, owner: Owner) -> Vec<Entry>
    requires { owner.port ≡ port.now.queue }
{
    match owner.finish(rt, port) {
        Ok(end) => end.into_entries(),
        Err(_) => panic!(rt; "no memory to finish"),
    }
}

/// A take finds nothing, and nothing is left.
pub fn expect_empty<R: Wait + Abort>(rt: &R, port: &Port, mut owner: Owner, selection: &Selection)
    requires { owner.port ≡ port.now.queue }
{
    expect_nothing(rt, port, &mut owner, selection);
    assert!(rt; finish(rt, port, owner).is_empty());
}
