//! All that an instance has still to do outside.

ghost use Rattle.std.specs.Prelude.{◌≡◌, ◌↔◌, ◌∷◌, [], IfOk, IsTrue, MatchOption, drop, map};
ghost use Rattle.run_order.specs.Outbox.{PendingList};
ghost use Rattle.run_order.specs.Pending.{behind_first};
ghost use Rattle.run_order.specs.Woven.{acts_of, fits, woven};
ghost use Rattle.serial_run.specs.StepWorld.{effect_of};

use crate::act::Act;
use crate::pending::{Pending, next_pending};
use run_record::{Reader, Record};
use serial_run::Effects;
use std::alloc::{AllocError, Global};
use std::collections::VecDeque;
use std::marker::Model;

/// What the latest step of an instance has still to do outside, in its order.
#[derive(Drop)]
pub struct Outbox {
    list: VecDeque<Pending>,
}

impl Model for Outbox {
    ghost use Rattle.run_order.specs.Outbox.{PendingList};

    ghost Value = { PendingList };

    ghost view = { λ o. o.list.items };
}

impl Outbox {
    /// Nothing is to be done. Takes no memory.
    pub fn new(alloc: Global) -> Self
        ensures { result ≡ [] }
    {
        Outbox {
            list: VecDeque::new(alloc),
        }
    }

    /// Whether nothing is to be done.
    pub fn is_empty(&self) -> bool
        ensures { IsTrue result ↔ (self.now ≡ []) }
    {
        self.list.is_empty()
    }

    /// What is to be done next.
    pub fn first(&self) -> Option<&Pending>
        ensures { MatchOption result (self.now ≡ []) (λ first. (later : PendingList) × (self.now ≡ first.now ∷ later)) }
    {
        self.list.front()
    }

    /// Takes out what is to be done next.
    pub fn pop(&mut self) -> Option<Pending>
        ensures { MatchOption result (self.old ≡ []) (λ first. self.old ≡ first ∷ self.new) }
    {
        self.list.pop_front()
    }

    /// Puts what the events of a record from this place on have to do outside, in their order, where these are the
    /// effects of these events; but not the first event, where that does nothing outside. Says whether they are.
    pub fn fill(
        &mut self,
        trace: &Record,
        from: usize,
        effects: &mut Effects,
    ) -> Result<bool, AllocError>
        requires { self.old ≡ [] }
        ensures fit { IfOk result (λ fit. fit
            ≡ fits (acts_of (drop from trace.now.events)) (map effect_of effects.old.items)) }
        ensures filled { IfOk result (λ fit. IsTrue fit
            → self.new ≡ behind_first (woven (acts_of (drop from trace.now.events)) (map effect_of effects.old.items))) }
    {
        let fits = self.weave(trace, from, effects)?;
        if !fits {
            return Ok(false);
        }
        self.drop_inside();
        Ok(true)
    }

    /// Drops the first event, if it does nothing outside.
    fn drop_inside(&mut self)
        ensures { self.new ≡ behind_first self.old }
    {
        let Some(first) = self.first() else {
            return;
        };
        if !first.is_inside() {
            return;
        }
        self.pop();
    }

    fn weave(
        &mut self,
        trace: &Record,
        from: usize,
        effects: &mut Effects,
    ) -> Result<bool, AllocError>
        requires { self.old ≡ [] }
        ensures fit { IfOk result (λ fit. fit
            ≡ fits (acts_of (drop from trace.now.events)) (map effect_of effects.old.items)) }
        ensures filled { IfOk result (λ fit. IsTrue fit
            → self.new ≡ woven (acts_of (drop from trace.now.events)) (map effect_of effects.old.items)) }
    {
        let events = events_from(trace, from);
        for told in events {
            let Some(next) = next_pending(Act::of(told.entry), effects) else {
                return Ok(false);
            };
            self.list.push_back(next)?;
        }
        Ok(true)
    }
}

/// The events of a record after so many. Those before are read only if the others aren't of one time. Those of a step
/// are, so a step takes no longer at the end of a long record.
fn events_from(trace: &Record, from: usize) -> Reader<'_>
    ensures { result ≡ drop from trace.now.events }
{
    if let Some(events) = trace.reader_from(from) {
        return events;
    }
    let mut events = trace.reader();
    skip(&mut events, from);
    events
}

/// Passes over so many events, or over all if there are fewer.
fn skip(events: &mut Reader<'_>, count: usize)
    ensures { events.new ≡ drop count events.old }
{
    for _ in 0..count {
        let _ = events.next();
    }
}
