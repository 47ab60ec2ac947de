//! Who lives, who has begun, what waits, and the links of the events that are told.

ghost use Rattle.std.specs.Prelude.{◌≡◌, ℕ, ◌+◌, ◌==◌, Some, None, IfOk, IsTrue, IsFalse, OnOk, true, false, if◌then◌else◌, slice_set, []};
ghost use Rattle.run_record.specs.Entry.{event_of, got_of};
ghost use Rattle.run_record.specs.Event as event;
ghost use Rattle.sdl_system.specs.declared.route.Dest.{Dest};
ghost use Rattle.view_timeline.specs.Did.{did, message_got, sent_by, taken_by};
ghost use Rattle.view_timeline.specs.declared.channel.Channel.{Channel};
ghost use Rattle.view_timeline.specs.Rows.{IsFirst};
ghost use Rattle.view_timeline.specs.Traffic.{IsMissing, IsSame, IsToBegun, Links, Notes, Passes, Puts, Takes, ledger_of};

use crate::channel::Channel;
use crate::entries::{Effect, effect_of};
use crate::moves::{ArrowId, EventId, Link};
use crate::rows::{Rows, Sent};
use indexmap::IndexSet;
use port_model::{SignalId, Value};
use run_record::{Entry, Origin, Stimulus};
use sdl_system::Target;
use std::alloc::{AllocError, Global};

/// Who lives, what waits in their ports, and the links of the events that are told so far. It notes one event after the
/// other. Those that have begun live, or have ended.
#[derive(Drop)]
pub struct Traffic<'r> {
    pub links: Vec<Link>,
    pub arrows: u32,
    pub living: IndexSet<u32>,
    pub begun: IndexSet<u32>,
    pub rows: Rows<'r>,
}

impl<'r> Traffic<'r> {
    /// Nothing is told, and nobody lives. Takes no memory.
    pub fn new(alloc: Global) -> Self
        ensures links { result.links.items ≡ [] }
        ensures arrows { result.arrows ≡ 0 }
        ensures living { (n : ℕ) → (ledger_of result).living n ≡ false }
        ensures begun { (n : ℕ) → (ledger_of result).begun n ≡ false }
        ensures rows { (channel : Channel) → (ledger_of result).rows channel ≡ [] }
    {
        Traffic {
            links: Vec::new(alloc),
            arrows: 0,
            living: IndexSet::new(alloc),
            begun: IndexSet::new(alloc),
            rows: Rows::new(alloc),
        }
    }

    /// The instance of this number lives, and has begun.
    pub fn begin(&mut self, number: u32) -> Result<(), AllocError>
        ensures links { self.new.links ≡ self.old.links }
        ensures arrows { self.new.arrows ≡ self.old.arrows }
        ensures rows { self.new.rows ≡ self.old.rows }
        ensures living { OnOk result ((n : ℕ) → (ledger_of self.new).living n
            ≡ (if number == n then true else (ledger_of self.old).living n)) }
        ensures begun { OnOk result ((n : ℕ) → (ledger_of self.new).begun n
            ≡ (if number == n then true else (ledger_of self.old).begun n)) }
    {
        self.living.insert(number)?;
        self.begun.insert(number)?;
        Ok(())
    }

    /// Whether the instance of this number lives.
    pub fn lives(&self, number: u32) -> bool
        ensures { result ≡ (ledger_of self.now).living number }
    {
        self.living.contains(&number)
    }

    /// Whether the instance of this number has begun: it lives, or has ended.
    pub fn has_begun(&self, number: u32) -> bool
        ensures { result ≡ (ledger_of self.now).begun number }
    {
        self.begun.contains(&number)
    }

    /// Notes an event of the instance of this number: an entry with its values. Says whether it can be: what it takes
    /// of an instance has to wait, with the same values. Else nothing is noted. If the entry is an output that names no
    /// Pid, its receiver has begun.
    pub fn note(
        &mut self,
        alloc: Global,
        own: u32,
        entry: &Entry,
        values: &'r [Value],
    ) -> Result<bool, AllocError>
        requires { IsToBegun (event_of entry.now values.now) (ledger_of self.old) }
        ensures noted { IfOk result (λ noted. IsTrue noted
            → Notes (did own (event_of entry.now values.now)) (ledger_of self.old) (ledger_of self.new)) }
        ensures not_noted { IfOk result (λ noted. IsFalse noted → IsSame (ledger_of self.old) (ledger_of self.new)) }
        ensures missing { IfOk result (λ noted. IsFalse noted
            → IsMissing (taken_by own (event_of entry.now values.now)) (ledger_of self.old)) }
    {
        match effect_of(entry) {
            Effect::Takes(got) => self.got(own, got, values),
            Effect::Sends { signal, target } => {
                self.output(alloc, own, signal, values, target)?;
                Ok(true)
            }
            Effect::Creates(number) => {
                self.create(number)?;
                Ok(true)
            }
            Effect::Ends => {
                self.end(own)?;
                Ok(true)
            }
            Effect::Nothing => {
                self.pass()?;
                Ok(true)
            }
        }
    }

    /// Notes that an instance is created.
    fn create(&mut self, number: u32) -> Result<(), AllocError>
        ensures passed { OnOk result (Passes (ledger_of self.old) (ledger_of self.new)) }
        ensures living { OnOk result ((n : ℕ) → (ledger_of self.new).living n
            ≡ (if number == n then true else (ledger_of self.old).living n)) }
        ensures begun { OnOk result ((n : ℕ) → (ledger_of self.new).begun n
            ≡ (if number == n then true else (ledger_of self.old).begun n)) }
    {
        self.begin(number)?;
        self.pass()
    }

    /// Notes that an instance ends: it lives no longer.
    fn end(&mut self, number: u32) -> Result<(), AllocError>
        ensures passed { OnOk result (Passes (ledger_of self.old) (ledger_of self.new)) }
        ensures living { OnOk result ((n : ℕ) → (ledger_of self.new).living n
            ≡ (if number == n then false else (ledger_of self.old).living n)) }
        ensures begun { self.new.begun ≡ self.old.begun }
    {
        self.living.swap_remove(&number);
        self.pass()
    }

    /// Notes that a signal or a timer is taken, if it's there.
    fn got(&mut self, own: u32, got: Stimulus, values: &[Value]) -> Result<bool, AllocError>
        ensures noted { IfOk result (λ noted. IsTrue noted
            → Links None (message_got own (got_of got values.now)) (ledger_of self.old) (ledger_of self.new)) }
        ensures not_noted { IfOk result (λ noted. IsFalse noted → IsSame (ledger_of self.old) (ledger_of self.new)) }
        ensures missing { IfOk result (λ noted. IsFalse noted
            → IsMissing (message_got own (got_of got values.now)) (ledger_of self.old)) }
        ensures living { self.new.living ≡ self.old.living }
        ensures begun { self.new.begun ≡ self.old.begun }
    {
        let Origin::Instance(sender) = got.origin else {
            self.pass()?;
            return Ok(true);
        };
        self.take(
            Channel {
                sender,
                receiver: own,
                signal: got.name,
            },
            values,
        )
    }

    /// Notes an output.
    fn output(
        &mut self,
        alloc: Global,
        own: u32,
        signal: SignalId,
        values: &'r [Value],
        target: Target,
    ) -> Result<(), AllocError>
        ensures links { (named : Dest) → OnOk result
            (Links (sent_by own (event.Output signal named values.now target)) None (ledger_of self.old)
            (ledger_of self.new)) }
        ensures living { self.new.living ≡ self.old.living }
        ensures begun { self.new.begun ≡ self.old.begun }
    {
        let Target::Instance(receiver) = target else {
            return self.pass();
        };
        self.put(
            alloc,
            Channel {
                sender: own,
                receiver,
                signal,
            },
            values,
        )
    }

    /// Notes an event that nothing links with another.
    fn pass(&mut self) -> Result<(), AllocError>
        ensures passed { OnOk result (Passes (ledger_of self.old) (ledger_of self.new)) }
        ensures living { self.new.living ≡ self.old.living }
        ensures begun { self.new.begun ≡ self.old.begun }
    {
        self.links.push(Link::Plain)?;
        Ok(())
    }

    /// Notes that a signal is sent to an instance: it waits in its port, or it's gone where the instance doesn't live.
    fn put(
        &mut self,
        alloc: Global,
        channel: Channel,
        values: &'r [Value],
    ) -> Result<(), AllocError>
        ensures put { OnOk result (Puts (record { channel = channel; values = values.now })
            (ledger_of self.old) (ledger_of self.new)) }
        ensures living { self.new.living ≡ self.old.living }
        ensures begun { self.new.begun ≡ self.old.begun }
    {
        if !self.lives(channel.receiver) {
            self.links.push(Link::Gone)?;
            return Ok(());
        }
        let event = event_id(self.links.len())?;
        self.links.push(Link::Waits)?;
        self.rows.put(alloc, channel, Sent { event, values })
    }

    /// Notes that what waits first on a channel is taken, if it has these values. Says whether it does; else nothing is
    /// noted.
    fn take(&mut self, channel: Channel, values: &[Value]) -> Result<bool, AllocError>
        ensures taken { IfOk result (λ taken. IsTrue taken
            → Takes (record { channel = channel; values = values.now }) (ledger_of self.old) (ledger_of self.new)) }
        ensures not_taken { IfOk result (λ taken. IsFalse taken → IsSame (ledger_of self.old) (ledger_of self.new)) }
        ensures missing { IfOk result (λ taken. IsFalse taken
            → IsFirst values.now ((ledger_of self.old).rows channel) → ⊥) }
        ensures living { self.new.living ≡ self.old.living }
        ensures begun { self.new.begun ≡ self.old.begun }
    {
        let Some(event) = self.rows.take(channel, values) else {
            return Ok(false);
        };
        let link = Link::Arrow(ArrowId(self.arrows));
        let arrows = one_more(self.arrows)?;
        mark(&mut self.links, event.0 as usize, link);
        self.links.push(link)?;
        self.arrows = arrows;
        Ok(true)
    }
}

/// The event before which there are so many. Refused where a number has no room for it.
fn event_id(count: usize) -> Result<EventId, AllocError>
    ensures { IfOk result (λ event. event.0 ≡ count) }
{
    match u32::try_from(count) {
        Ok(number) => Ok(EventId(number)),
        Err(_) => Err(AllocError),
    }
}

/// One more arrow. Refused where a number has no room for it.
fn one_more(arrows: u32) -> Result<u32, AllocError>
    ensures { IfOk result (λ more. more ≡ arrows + 1) }
{
    match arrows.checked_add(1) {
        Some(more) => Ok(more),
        None => Err(AllocError),
    }
}

/// Puts a link in the place of another, where there is one.
fn mark(links: &mut [Link], place: usize, link: Link)
    ensures { links.new ≡ slice_set links.old place link }
{
    if place < links.len() {
        links[place] = link;
    }
}
