//! What an instance knows after an event of its record.

ghost use Rattle.std.specs.Prelude.{◌≡◌, IfOk, OnOk, Some, true};
ghost use Rattle.port_model.specs.Value.{ValueList};
ghost use Rattle.run_record.specs.Entry.{event_of, got_of};
ghost use Rattle.run_semantics.specs.Leads.{offspring_of};
ghost use Rattle.sdl_failures.specs.Received.{received_by, reception_in};
ghost use Rattle.sdl_failures.specs.Told.{begun_at, port_after, port_without, store_after, taken_at};
ghost use Rattle.port_model.specs.Port.{remove_from, set_in};
ghost use Rattle.port_model.specs.Take.{name_of};
ghost use Rattle.run_record.specs.Event.{values_got};

use crate::replayed::known::Known;
use crate::replayed::reception::{receive, reception_in};
use port_model::{Alone, Inbox, Pid, SignalId, Ticks, TimerKey, Value, Values};
use run_record::{Entry, Origin, Stimulus, Store};
use sdl_system::{Process, StateId};
use std::alloc::{AllocError, Global};

/// An instance of a process, by its number.
#[derive(Clone, Copy)]
pub struct Own<'p> {
    pub process: &'p Process,
    pub number: u32,
}

impl Known {
    /// Takes to know what an event tells, which an instance recorded that was last in this state. False: the state takes
    /// no such signal, or a value of it doesn't fit. Then what is known says nothing.
    pub(crate) fn tell(
        &mut self,
        alloc: Global,
        own: Own<'_>,
        state: Option<StateId>,
        entry: Entry,
        values: &[Value],
    ) -> Result<bool, AllocError>
        ensures store { IfOk result (λ fits. fits ≡ true →
            store_after own.entry.process.now own.entry.number state self.old.store (event_of entry values.now)
            ≡ Some self.new.store) }
        ensures port { OnOk result (self.new.port ≡ port_after self.old.port (event_of entry values.now)) }
    {
        tell_port(alloc, &mut self.inbox, entry, values)?;
        Ok(tell_store(&mut self.store, own, state, entry, values))
    }
}

fn tell_store(
    store: &mut Store,
    own: Own<'_>,
    state: Option<StateId>,
    entry: Entry,
    values: &[Value],
) -> bool
    ensures { result ≡ true →
        store_after own.entry.process.now own.entry.number state store.old (event_of entry values.now) ≡ Some store.new }
{
    match entry {
        Entry::Start { at } => {
            store.time = Ticks::new(at);
            store.done = 0;
            true
        }
        Entry::Consumed { at, got } => tell_reception(store, own, state, at, got, values),
        Entry::Prior { at, got } => tell_reception(store, own, state, at, got, values),
        Entry::Discarded { at, got } => {
            store.sender = got.origin.sender(own.number);
            store.time = Ticks::new(at);
            true
        }
        Entry::Provided { at, .. } => {
            store.sender = Pid::Of(own.number);
            store.time = Ticks::new(at);
            store.done = 0;
            true
        }
        Entry::Task { variable, value } => {
            store.variables.set(variable, value);
            true
        }
        Entry::Create { pid, .. } => {
            store.offspring = offspring_of(pid);
            true
        }
        _ => true,
    }
}

/// The values of a signal go to the variables of its input, and its transition begins.
fn tell_reception(
    store: &mut Store,
    own: Own<'_>,
    state: Option<StateId>,
    at: u64,
    got: Stimulus,
    values: &[Value],
) -> bool
    ensures { result ≡ true → received_by own.entry.process.now
        (reception_in own.entry.process.now state (name_of (got_of got values.now))) (values_got (got_of got values.now))
        (begun_at own.entry.number at (got_of got values.now) store.old) ≡ Some store.new }
{
    let Some(reception) = reception_in(own.process, state, got.name) else {
        return false;
    };
    store.sender = got.origin.sender(own.number);
    store.time = Ticks::new(at);
    store.done = 0;
    receive(own.process, &reception.variables, values, store)
}

fn offspring_of(number: Option<u32>) -> Pid
    ensures { result ≡ offspring_of number }
{
    match number {
        None => Pid::Null,
        Some(number) => Pid::Of(number),
    }
}

fn tell_port(
    alloc: Global,
    inbox: &mut Alone,
    entry: Entry,
    values: &[Value],
) -> Result<(), AllocError>
    requires { inbox.old.state.alive ≡ true }
    ensures port { OnOk result (inbox.new.state ≡ port_after inbox.old.state (event_of entry values.now)) }
    ensures alive { inbox.new.state.alive ≡ true }
{
    match entry {
        Entry::Consumed { got, .. } => tell_taken(alloc, inbox, got, values),
        Entry::Prior { got, .. } => tell_taken(alloc, inbox, got, values),
        Entry::Discarded { got, .. } => tell_taken(alloc, inbox, got, values),
        Entry::Set { timer, due, .. } => tell_set(alloc, inbox, timer, values, Ticks::new(due)),
        Entry::Reset { timer, .. } => tell_reset(alloc, inbox, timer, values),
        _ => Ok(()),
    }
}

/// A timer whose signal is taken is active no longer.
fn tell_taken(
    alloc: Global,
    inbox: &mut Alone,
    got: Stimulus,
    values: &[Value],
) -> Result<(), AllocError>
    requires { inbox.old.state.alive ≡ true }
    ensures port { OnOk result (inbox.new.state ≡ port_without inbox.old.state (got_of got values.now)) }
    ensures alive { inbox.new.state.alive ≡ true }
{
    match got.origin {
        Origin::Timer => tell_reset(alloc, inbox, got.name, values),
        Origin::Null | Origin::Env | Origin::Instance(_) => Ok(()),
    }
}

fn tell_set(
    alloc: Global,
    inbox: &mut Alone,
    timer: SignalId,
    values: &[Value],
    due: Ticks,
) -> Result<(), AllocError>
    requires { inbox.old.state.alive ≡ true }
    ensures port { OnOk result
        (inbox.new.state ≡ set_in inbox.old.state (record { name = timer; values = values.now }) due) }
    ensures alive { inbox.new.state.alive ≡ true }
{
    let key = key_of(alloc, timer, values)?;
    match inbox.set(key, due) {
        Ok(_) => Ok(()),
        Err(_) => Err(AllocError),
    }
}

fn tell_reset(
    alloc: Global,
    inbox: &mut Alone,
    timer: SignalId,
    values: &[Value],
) -> Result<(), AllocError>
    requires { inbox.old.state.alive ≡ true }
    ensures port { OnOk result
        (inbox.new.state ≡ remove_from inbox.old.state (record { name = timer; values = values.now })) }
    ensures alive { inbox.new.state.alive ≡ true }
{
    let key = key_of(alloc, timer, values)?;
    inbox.reset(&key);
    Ok(())
}

fn key_of(alloc: Global, timer: SignalId, values: &[Value]) -> Result<TimerKey, AllocError>
    ensures { IfOk result (λ key. key ≡ record { name = timer; values = values.now }) }
{
    let values = Values::from_slice(alloc, values)?;
    Ok(TimerKey {
        name: timer,
        values,
    })
}
