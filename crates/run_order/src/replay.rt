//! A run that is executed in one order.

ghost use Rattle.std.specs.Prelude.{◌≡◌, ◌↔◌, ◌⊎◌, ◌+◌, ◌<◌, IfNone, IfOk, IfSome, IsTrue, MatchOption, None, Some, if◌then◌else◌, length, nat_le, slice_get, true};
ghost use Rattle.std.specs.Option.{option_map_or};
ghost use Rattle.run_order.specs.Kept.{AreStillBehind, AreStillBetween, IsLooked, IsThere, NothingStands, StandsNext};
ghost use Rattle.run_order.specs.Noted.{IsFirstBehind, IsNobodyBehind};
ghost use Rattle.run_order.specs.OrderState.{beginning, living_of};
ghost use Rattle.run_semantics.specs.World.{count_in, is_reached, most_instances, number_for};

use crate::member::Member;
use crate::pending::Pending;
use crate::roster::Roster;
use port_model::Ticks;
use sdl_script::{Script, ScriptLine};
use sdl_system::{ProcessId, System};
use serial_run::{Effects, Instances};
use serial_sweeps::Agenda;
use std::alloc::{AllocError, Global};
use std::marker::Model;

/// The instances that a run may have in all.
const MOST_INSTANCES: usize = 1_000;

/// A run between two happenings. Each call does one happening, or nothing.
#[derive(Drop)]
pub struct Replay<'s> {
    pub(crate) system: &'s System,
    /// By ascending number, the first one with the number 1.
    pub(crate) members: Vec<Member<'s>>,
    pub(crate) roster: Roster,
    pub(crate) agenda: Agenda,
    /// Whether all have rested for the first time: then the script begins.
    pub(crate) begun: bool,
    /// What is left of the script.
    pub(crate) script: &'s [ScriptLine],
    /// The time of the script's last line.
    pub(crate) end: Ticks,
    /// What a step does outside, meanwhile.
    pub(crate) effects: Effects,
}

impl<'s> Model for Replay<'s> {
    ghost use Rattle.std.specs.Coded.{codes};
    ghost use Rattle.run_order.specs.Kept.{AreKept, state_with};
    ghost use Rattle.run_order.specs.Noted.{ReplayState};
    ghost use Rattle.sdl_system.specs.contracts.expression.Expression as expression;

    ghost Value = { ReplayState };

    ghost coded = { Prim.hlevel (codes, expression.the_row.coded) };

    ghost view = { λ r. record {
      order = state_with r.system.now r.agenda.clock r.begun r.members.items r.roster r.agenda.fuses r.script.now r.end;
      noted = r.agenda.ready;
    } };

    ghost invariant = { λ r. AreKept r.agenda.ready r.system.now r.members.items };
}

impl<'s> Replay<'s> {
    /// A run before its first step. Refused for lack of memory.
    pub fn new(alloc: Global, system: &'s System, script: &'s Script) -> Result<Self, AllocError>
        ensures { IfOk result (λ replay. replay.order ≡ beginning system.now script.now.lines.items) }
    {
        let mut agenda = Agenda::new(alloc);
        let first = Instances::begin(alloc, &mut agenda, system)?;
        let mut roster = Roster::new(alloc, system.processes().len())?;
        let mut members = Vec::new(alloc);
        for instance in first.instances {
            let who = instance.who();
            roster.enter(who.process, who.pid)?;
            members.push(Member::fresh(alloc, instance))?;
        }
        Ok(Replay {
            system,
            members,
            roster,
            agenda,
            begun: false,
            script: script.lines.as_slice(),
            end: script.end(),
            effects: Effects::new(alloc),
        })
    }

    /// The clock.
    pub fn clock(&self) -> Ticks
        ensures { result ≡ self.now.order.clock }
    {
        self.agenda.clock
    }

    /// Whether there is an instance of this number.
    pub fn is_there(&self, number: u32) -> bool
        ensures { IsTrue result ↔ IsThere self.now.order number }
    {
        self.place_of(number).is_some()
    }

    /// What is to be told next of an instance, if it has begun a step.
    pub fn next_of(&self, number: u32) -> Option<&Pending>
        ensures { MatchOption result (NothingStands self.now.order number) (λ what. StandsNext self.now.order number what.now) }
    {
        let place = self.place_of(number)?;
        self.members[place].pending.first()
    }

    /// Whether the next output of an instance was looked up.
    pub fn is_looked(&self, number: u32) -> bool
        ensures { IsTrue result ↔ IsLooked self.now.order number }
    {
        match self.place_of(number) {
            Some(place) => self.members[place].looked,
            None => false,
        }
    }

    /// The least number behind this one of an instance that may have something to do. All others are at rest, and have
    /// nothing still to be done outside.
    pub fn next_noted(&self, behind: u32) -> Option<u32>
        ensures next { IfSome result (IsFirstBehind self.now.noted behind) }
        ensures nobody { IfNone result (IsNobodyBehind self.now.noted behind) }
        ensures between { IfSome result (AreStillBetween self.now.order behind) }
        ensures none { IfNone result (AreStillBehind self.now.order behind) }
    {
        self.agenda.ready.next_after(behind)
    }

    /// The number of a new instance of a process: the next that wasn't given. None: as many live as may, or all numbers
    /// were given.
    pub(crate) fn number_for(&self, process: ProcessId) -> Option<u32>
        ensures { result ≡ number_for self.now.order.system (living_of self.now.order) process }
    {
        if self.is_full(process) {
            return None;
        }
        next_number(self.members.len())
    }

    /// Whether as many instances of a process live as may, or there is no such process.
    fn is_full(&self, process: ProcessId) -> bool
        ensures { result ≡ option_map_or (λ p. is_reached p.maximum (count_in (living_of self.now.order) process))
            (slice_get self.now.order.system.processes process.0) true }
    {
        let Some(definition) = self.system.process(process) else {
            return true;
        };
        is_reached(definition.maximum, self.roster.count(process))
    }

    /// The place of the instance of a number. No instance has the number 0.
    pub(crate) fn place_of(&self, number: u32) -> Option<usize>
        ensures some { IfSome result (λ place. (place + 1 ≡ number) × (place < length self.now.order.members)) }
        ensures none { IfNone result ((number ≡ 0) ⊎ (length self.now.order.members < number)) }
    {
        place_below(self.members.len(), number)
    }
}

/// The place of an instance, where there are so many.
fn place_below(count: usize, number: u32) -> Option<usize>
    ensures some { IfSome result (λ place. (place + 1 ≡ number) × (place < count)) }
    ensures none { IfNone result ((number ≡ 0) ⊎ (count < number)) }
{
    let place = number.checked_sub(1)? as usize;
    if place < count { Some(place) } else { None }
}

/// Whether so many are as many as may live, where that is bounded.
fn is_reached(maximum: Option<u32>, count: usize) -> bool
    ensures { result ≡ is_reached maximum count }
{
    match maximum {
        Some(most) => most as usize <= count,
        None => false,
    }
}

/// The number behind so many, if it may be given.
#[tactic(auto, using(crate::proofs::Living::numbering))]
fn next_number(given: usize) -> Option<u32>
    ensures { result ≡ (if nat_le most_instances given then None else Some (given + 1)) }
{
    if MOST_INSTANCES <= given {
        return None;
    }
    Some(given as u32 + 1)
}
