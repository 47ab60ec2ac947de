//! The signals of the rows, each by its name and its one value: they are put, and then just these are taken or left.

ghost use Rattle.std.specs.Prelude.{◌≡◌, IfSome};
ghost use Rattle.bench.specs.Signals.{entry_of, item_of, taken_of};

use crate::call::Call;
use crate::fault::Fault;
use crate::retry::{put, take};
use input_port::{Finished, Owner, Port, Sender};
use port_model::{Entry, Got, Item, Pid, Selection, SignalId, Taken, Value, Values};
use std::alloc::Global;
use std::sync::Wait;

/// Puts these signals.
pub fn put_each<R: Wait>(
    rt: &R,
    alloc: Global,
    port: &Port,
    sender: &mut Sender,
    signals: &[(u32, i64)],
    retried: &mut Option<Call>,
) -> Result<(), Fault>
    requires { sender.old.port ≡ port.now.queue }
    ensures { sender.new.port ≡ sender.old.port }
{
    for (name, value) in signals {
        put(rt, port, sender, item(alloc, *name, *value), retried)?;
    }
    Ok(())
}

/// The next takes consume just these signals.
pub fn expect_takes<R: Wait>(
    rt: &R,
    port: &Port,
    owner: &mut Owner,
    selection: &Selection,
    signals: &[(u32, i64)],
    retried: &mut Option<Call>,
) -> Result<(), Fault>
    requires { owner.old.port ≡ port.now.queue }
    ensures { owner.new.port ≡ owner.old.port }
{
    for signal in signals {
        let taken = take(rt, port, owner, selection, retried)?;
        if consumed(&taken) != Some(*signal) {
            return Err(Fault::Wrong);
        }
    }
    Ok(())
}

/// The next take finds nothing.
pub fn expect_nothing<R: Wait>(
    rt: &R,
    port: &Port,
    owner: &mut Owner,
    selection: &Selection,
    retried: &mut Option<Call>,
) -> Result<(), Fault>
    requires { owner.old.port ≡ port.now.queue }
    ensures { owner.new.port ≡ owner.old.port }
{
    match take(rt, port, owner, selection, retried)? {
        Taken::Nothing => Ok(()),
        _ => Err(Fault::Wrong),
    }
}

/// Just these signals are left, in this order.
pub fn expect_left(end: &Finished, signals: &[(u32, i64)]) -> Result<(), Fault> {
    let wanted = signals.iter().map(|signal| Some(*signal));
    if end.entries().iter().map(left).eq(wanted) {
        Ok(())
    } else {
        Err(Fault::Wrong)
    }
}

/// The signal that a take consumed, if a row puts such a one.
pub fn consumed(taken: &Taken) -> Option<(u32, i64)>
    ensures { IfSome result (λ signal. taken.now ≡ taken_of signal.0 signal.1) }
{
    match taken {
        Taken::Consumed(Got::Signal(item)) => shown(item),
        _ => None,
    }
}

/// The signal that is left, if a row puts such a one.
fn left(entry: &Entry) -> Option<(u32, i64)>
    ensures { IfSome result (λ signal. entry.now ≡ entry_of signal.0 signal.1) }
{
    match entry {
        Entry::Signal(item) => shown(item),
        Entry::Timer(_) => None,
    }
}

/// The signal of a name and a value, from the environment. It takes no memory, since it has one value.
pub fn item(alloc: Global, name: u32, value: i64) -> Item
    ensures { result ≡ item_of name value }
{
    let Ok(values) = Values::from_slice(alloc, &[Value::Int(value)]) else {
        unreachable!()
    };
    Item {
        name: SignalId(name),
        values,
        sender: Pid::Env,
    }
}

/// The name and the value of a signal, if a row puts such a one.
fn shown(item: &Item) -> Option<(u32, i64)>
    ensures { IfSome result (λ signal. item.now ≡ item_of signal.0 signal.1) }
{
    match (item.values.as_slice(), item.sender) {
        ([Value::Int(value)], Pid::Env) => Some((item.name.0, *value)),
        _ => None,
    }
}
