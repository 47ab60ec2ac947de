//! A record that is gone through.

ghost use Rattle.std.specs.Prelude.{◌≡◌, IfOk, true};
ghost use Rattle.port_model.specs.Value.{ValueList};
ghost use Rattle.run_record.specs.Entry.{event_of};
ghost use Rattle.sdl_failures.specs.Replay.{Follows, HasCome};
ghost use Rattle.sdl_failures.specs.Stands.{identity_of};
ghost use Rattle.sdl_failures.specs.Told.{state_after};

use crate::replayed::begin::begin_of;
use crate::replayed::known::Known;
use crate::replayed::spot::Spot;
use crate::replayed::told::Own;
use run_record::{Entry, Identity, Record, Variables};
use sdl_system::{Process, StateId, System};
use std::alloc::{AllocError, Global};
use view_timeline::Cursor;

/// How far an instance has come by its record, what it knows there, and what is left of the record.
#[derive(Drop)]
pub struct Replay<'r> {
    pub system: &'r System,
    pub process: &'r Process,
    pub who: Identity,
    pub spot: Spot,
    pub known: Known,
    pub left: Cursor<'r>,
}

impl<'r> Replay<'r> {
    /// The beginning of an instance of this process, with these variables.
    pub fn new(
        alloc: Global,
        system: &'r System,
        process: &'r Process,
        trace: &'r Record,
        variables: Variables,
    ) -> Result<Self, AllocError>
        ensures came { IfOk result (λ replay. HasCome variables trace.now.events replay) }
        ensures system { IfOk result (λ replay. replay.system.now ≡ system.now) }
        ensures process { IfOk result (λ replay. replay.process.now ≡ process.now) }
        ensures who { IfOk result (λ replay. replay.who ≡ identity_of trace.now) }
    {
        let who = Identity {
            process: trace.process(),
            pid: trace.pid(),
            parent: trace.parent(),
        };
        let left = Cursor::new(trace)?;
        let known = Known::new(alloc, who.pid, variables);
        Ok(Replay {
            system,
            process,
            who,
            spot: Spot::Between(None),
            known,
            left,
        })
    }

    /// Goes on by so many events, before the last transition. False: there are fewer, or one doesn't fit.
    pub fn tell_all(&mut self, alloc: Global, count: usize) -> Result<bool, AllocError>
        ensures { IfOk result (λ told. told ≡ true → Follows self.old self.new) }
    {
        for _event in 0..count {
            let told = self.tell(alloc)?;
            if !told {
                return Ok(false);
            }
        }
        Ok(true)
    }

    fn tell(&mut self, alloc: Global) -> Result<bool, AllocError>
        ensures { IfOk result (λ told. told ≡ true → Follows self.old self.new) }
    {
        let Spot::Between(state) = self.spot else {
            return Ok(false);
        };
        let Some(next) = self.left.next() else {
            return Ok(false);
        };
        let own = self.own();
        let fits = self.known.tell(alloc, own, state, next.entry, next.values)?;
        if !fits {
            return Ok(false);
        }
        self.spot = Spot::Between(state_after(state, next.entry));
        self.left = next.rest;
        Ok(true)
    }

    /// Goes to the statement at which the last transition begins, with the event that begins it. False: no transition
    /// begins with the next event.
    pub fn enter(&mut self, alloc: Global) -> Result<bool, AllocError>
        ensures { IfOk result (λ entered. entered ≡ true → Follows self.old self.new) }
    {
        let Spot::Between(state) = self.spot else {
            return Ok(false);
        };
        let Some(next) = self.left.next() else {
            return Ok(false);
        };
        let Some(node) = begin_of(self.process, state, next.entry) else {
            return Ok(false);
        };
        let own = self.own();
        let fits = self.known.tell(alloc, own, state, next.entry, next.values)?;
        if !fits {
            return Ok(false);
        }
        self.spot = Spot::At { node, part: 0 };
        self.left = next.rest;
        Ok(true)
    }

    pub(crate) fn own(&self) -> Own<'r>
        ensures process { result.process.now ≡ self.now.process.now }
        ensures number { result.number ≡ self.now.who.pid }
    {
        Own {
            process: self.process,
            number: self.who.pid,
        }
    }
}

/// The state in which an instance was last, after an event. Its values say nothing.
fn state_after(state: Option<StateId>, entry: Entry) -> Option<StateId>
    ensures { (values : ValueList) → result ≡ state_after state (event_of entry values) }
{
    match entry {
        Entry::NextState { state } => Some(state),
        _ => state,
    }
}
