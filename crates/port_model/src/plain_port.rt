//! The input port of one thread.
ghost use Rattle.std.specs.Prelude.{◌≡◌, ◌↔◌, ◌⊎◌, ◌+◌, ◌<◌, ◌≤◌, [], false, true, filter, length, All, IsTrue, IfOk, IfErr, IfSome, IsErrOf, OnOk, OnErr, MatchOption, MatchResult};
ghost use Rattle.port_model.specs.Backlog.{waiting_in};
ghost use Rattle.port_model.specs.Coherence.{IsCoherent};
ghost use Rattle.port_model.specs.PlainPort.{armed_left};
ghost use Rattle.port_model.specs.Port.{empty_port, expires, expire_in, is_spent, put_into, remove_from, set_in, stopped};
ghost use Rattle.port_model.specs.Take.{taken_as, HasClass, IsOrdinary, Takes, TakesFirst};
ghost use Rattle.port_model.specs.Timers.{after_taking, armed_after, due_times, is_active, is_signal_of, with_armed, without_armed, without_signal, IsLeast};
ghost use Rattle.port_model.specs.declared.selection.Class.TheVariants as class;

use crate::backlog::{Backlog, Unsaved};
use crate::error::PortError;
use crate::got::Got;
use crate::refused::Refused;
use crate::selection::{Class, Selection};
use crate::taken::Taken;
use crate::timers::Timers;
use crate::values::{Arm, Item, Ticks, TimerKey};
use std::alloc::{AllocError, Global};
use std::collections::VecDeque;
use std::marker::Model;

/// How many sets a port counts.
pub const MOST_SETS: u64 = 1 << 62;

/// An input port for one thread: a list of what waits and the active timers.
#[derive(Drop)]
pub struct PlainPort {
    waiting: Backlog,
    timers: Timers,
    sets: u64,
    alive: bool,
}

/// The rest of a port that is given up: all that waits, in order, and the table of the active timers.
#[derive(Drop)]
pub struct PortParts {
    pub waiting: VecDeque<Got>,
    pub timers: Timers,
}

impl Model for PlainPort {
    ghost use Rattle.std.specs.Prelude.{◌≤◌};
    ghost use Rattle.port_model.specs.declared.plain_port.TheConstants.{MOST_SETS};
    ghost use Rattle.port_model.specs.Backlog.{waiting_in};
    ghost use Rattle.port_model.specs.Coherence.{IsCoherent};
    ghost use Rattle.port_model.specs.PlainPort.{AreUpTo, PlainPortValue};

    ghost Value = { PlainPortValue };

    ghost view = { λ port. record {
      state = record {
        waiting = waiting_in port.waiting;
        timers = port.timers.timers;
        sets = port.sets;
        alive = port.alive;
      };
      armed = port.timers.armed;
      room = port.waiting.room;
    } };

    ghost invariant = { λ port. (port.sets ≤ MOST_SETS)
        × IsCoherent (waiting_in port.waiting) port.timers.timers
        × AreUpTo port.sets port.timers.armed };
}

impl PlainPort {
    /// An empty port. Takes no memory.
    pub fn new(alloc: Global) -> Self
        ensures state { result.state ≡ empty_port }
        ensures armed { result.armed ≡ [] }
    {
        PlainPort {
            waiting: Backlog::new(alloc),
            timers: Timers::new(alloc),
            sets: 0,
            alive: true,
        }
    }

    /// Makes room for one entry more. Nothing else changes, also where memory is refused; and it is refused only where
    /// no room was left.
    pub fn reserve(&mut self) -> Result<(), AllocError>
        ensures ok { OnOk result (0 < self.new.room) }
        ensures state { self.new.state ≡ self.old.state }
        ensures armed { self.new.armed ≡ self.old.armed }
        ensures full { OnErr result (self.old.room ≡ 0) }
    {
        self.waiting.reserve()
    }

    /// Puts a signal behind all that waits. A stopped port drops it, and takes no memory. For lack of memory the signal
    /// comes back.
    #[inline(always)]
    pub fn put(&mut self, item: Item) -> Result<(), Refused<Item>>
        ensures ok { OnOk result (self.new.state ≡ put_into self.old.state item) }
        ensures err { OnErr result (self.new.state ≡ self.old.state) }
        ensures handed_back { IfErr result (λ refused. refused.value ≡ item) }
        ensures memory { IfErr result (λ refused. refused.error ≡ PortError.Memory) }
        ensures refused_alive { OnErr result (self.old.state.alive ≡ true) }
        ensures armed { self.new.armed ≡ self.old.armed }
        ensures full { OnErr result (self.old.room ≡ 0) }
    {
        if !self.alive {
            return Ok(());
        }
        if let Err(_) = self.reserve() {
            return Err(Refused {
                error: PortError::Memory,
                value: item,
            });
        }
        self.put_reserved(item);
        Ok(())
    }

    /// `put` into the room that `reserve` has made. Takes no memory.
    #[inline(always)]
    pub fn put_reserved(&mut self, item: Item)
        requires { 0 < self.old.room }
        ensures state { self.new.state ≡ put_into self.old.state item }
        ensures armed { self.new.armed ≡ self.old.armed }
    {
        if self.alive {
            self.waiting.push_reserved(Got::Signal(item));
        }
    }

    /// Expires a timer (Z.102, timer): where it is Running by the set `arm` for the time `due`, and `at` is
    /// `due` or later, its signal goes behind all that waits. The reply is whether that was so. In every other case
    /// nothing changes. The key comes back for lack of memory, and nothing changes.
    ///
    /// The key is taken by value, as `put` takes a signal: it goes into the port, and nothing is copied.
    pub fn expire(
        &mut self,
        key: TimerKey,
        arm: Arm,
        due: Ticks,
        at: Ticks,
    ) -> Result<bool, Refused<TimerKey>>
        ensures ok { IfOk result (λ expired. expired ≡ expires self.old.state key arm due at) }
        ensures state { OnOk result (self.new.state ≡ expire_in self.old.state key arm due at) }
        ensures err { OnErr result (self.new.state ≡ self.old.state) }
        ensures handed_back { IfErr result (λ refused. refused.value ≡ key) }
        ensures memory { IfErr result (λ refused. refused.error ≡ PortError.Memory) }
        ensures refused_due { OnErr result (expires self.old.state key arm due at ≡ true) }
        ensures armed { self.new.armed ≡ self.old.armed }
        ensures full { OnErr result (self.old.room ≡ 0) }
    {
        if !self.expires(&key, arm, due, at) {
            return Ok(false);
        }
        if let Err(_) = self.reserve() {
            return Err(Refused {
                error: PortError::Memory,
                value: key,
            });
        }
        Ok(self.expire_reserved(key, arm, due, at))
    }

    /// `expire` into the room that `reserve` has made. Takes no memory.
    pub fn expire_reserved(&mut self, key: TimerKey, arm: Arm, due: Ticks, at: Ticks) -> bool
        requires { 0 < self.old.room }
        ensures reply { result ≡ expires self.old.state key arm due at }
        ensures state { self.new.state ≡ expire_in self.old.state key arm due at }
        ensures armed { self.new.armed ≡ self.old.armed }
    {
        if !self.expires(&key, arm, due, at) {
            return false;
        }
        self.timers.expire(&key, arm, due);
        self.waiting.push_reserved(Got::Timer(key));
        true
    }

    fn expires(&self, key: &TimerKey, arm: Arm, due: Ticks, at: Ticks) -> bool
        ensures { result ≡ expires self.now.state key.now arm due at }
    {
        due <= at && self.timers.runs(key, arm, due)
    }

    /// Whether a set of a timer is spent: it was made, and the timer runs by it no more. It was reset, set again or
    /// stopped since, or has expired. The set stays spent.
    pub fn is_spent(&self, key: &TimerKey, arm: Arm, due: Ticks) -> bool
        ensures { result ≡ is_spent self.now.state key.now arm due }
    {
        arm.get() <= self.sets && !self.timers.runs(key, arm, due)
    }

    /// Whether all sets that the port counts are made, so that the next one is refused.
    pub fn sets_spent(&self) -> bool
        ensures { IsTrue result ↔ (self.now.state.sets ≡ MOST_SETS) }
    {
        self.sets == MOST_SETS
    }

    /// Sets a timer for the time `due`, after a reset. The reply is the number of the set. Refused with
    /// `SetsSpent` after 2^62 sets, and for lack of memory; the key is dropped then, and nothing changes.
    pub fn set(&mut self, key: TimerKey, due: Ticks) -> Result<Arm, PortError>
        ensures ok { OnOk result (self.new.state ≡ set_in self.old.state key due) }
        ensures arm { IfOk result (λ arm. arm ≡ self.old.state.sets + 1) }
        ensures spent { IsErrOf result PortError.SetsSpent ↔ (self.old.state.sets ≡ MOST_SETS) }
        ensures errors { IfErr result (λ error. (error ≡ PortError.SetsSpent) ⊎ (error ≡ PortError.Memory)) }
        ensures err { OnErr result (self.new.state ≡ self.old.state) }
        ensures armed { MatchResult result (λ arm. self.new.armed ≡ with_armed key arm due self.old.armed)
            (λ _. self.new.armed ≡ self.old.armed) }
    {
        if self.sets == MOST_SETS {
            return Err(PortError::SetsSpent);
        }
        let Ok(waited) = self.timers.set(key, Arm::new(self.sets + 1), due) else {
            return Err(PortError::Memory);
        };
        self.sets += 1;
        forget_signal(&mut self.waiting, waited);
        Ok(Arm::new(self.sets))
    }

    /// Resets a timer: it isn't active any more, and its signal doesn't wait. For an inactive timer nothing changes.
    pub fn reset(&mut self, key: &TimerKey)
        ensures state { self.new.state ≡ remove_from self.old.state key.now }
        ensures armed { self.new.armed ≡ without_armed key.now self.old.armed }
    {
        if self.timers.remove(key) {
            self.waiting.forget(key);
        }
    }

    /// Whether a timer is active: from its set until its signal is taken or it is reset.
    pub fn active(&self, key: &TimerKey) -> bool
        ensures { result ≡ is_active key.now self.now.state.timers }
    {
        self.timers.active(key)
    }

    /// The least due time of a timer that is set and has not expired.
    pub fn next_due(&self) -> Option<Ticks>
        ensures { IsLeast (due_times self.now.state.timers) result }
    {
        self.timers.next_due()
    }

    /// Takes the first entry of a priority input, else the first that isn't saved (Z.102, priority input, save). Takes
    /// no memory.
    #[inline(always)]
    pub fn take(&mut self, selection: &Selection) -> Taken
        ensures take { Takes selection.now self.old.state result self.new.state }
        ensures armed { self.new.armed ≡ armed_left result self.old.armed }
    {
        if self.waiting.is_empty() {
            return Taken::Nothing;
        }
        match self.waiting.first_class(selection) {
            None => self.look(selection),
            Some(class) => {
                let got = self.waiting.take_first();
                end_timer(&mut self.timers, &got);
                taken_as(class, got)
            }
        }
    }

    /// `put_reserved` where nothing waits, and then `take`: what is taken at once never lies in the port. That nothing
    /// waits is the caller's condition.
    #[inline(always)]
    #[tactic(auto, using(crate::proofs::TakenAtOnce::taken_at_once, crate::proofs::TakenAtOnce::saved_at_once, crate::proofs::TakenAtOnce::dropped_at_once))]
    pub fn take_put(&mut self, item: Item, selection: &Selection) -> Taken
        requires room { 0 < self.old.room }
        requires empty { self.old.state.waiting ≡ [] }
        ensures take { Takes selection.now (put_into self.old.state item) result self.new.state }
        ensures armed { self.new.armed ≡ armed_left result self.old.armed }
    {
        if !self.alive {
            return Taken::Nothing;
        }
        match selection.class_of(item.name) {
            Class::Saved => {
                self.waiting.push_reserved(Got::Signal(item));
                Taken::Nothing
            }
            class => taken_as(class, Got::Signal(item)),
        }
    }

    /// Takes the first entry of a priority input, else the first that isn't saved.
    #[inline(never)]
    fn look(&mut self, selection: &Selection) -> Taken
        ensures take { Takes selection.now self.old.state result self.new.state }
        ensures armed { self.new.armed ≡ armed_left result self.old.armed }
    {
        if let Some(got) = self.take_priority(selection) {
            return Taken::Consumed(got);
        }
        match self.waiting.take_unsaved(selection) {
            None => Taken::Nothing,
            Some(unsaved) => {
                let Unsaved { got, class } = unsaved;
                end_timer(&mut self.timers, &got);
                taken_as(class, got)
            }
        }
    }

    /// Takes the first entry of a priority input, if there is one (Z.102, priority input). Takes no memory.
    pub fn take_priority(&mut self, selection: &Selection) -> Option<Got>
        ensures state { MatchOption result ((self.new.state ≡ self.old.state)
            × All (IsOrdinary selection.now) self.old.state.waiting)
            (λ got. TakesFirst (IsOrdinary selection.now) self.old.state got self.new.state
            × HasClass class.Priority selection.now got) }
        ensures armed { MatchOption result (self.new.armed ≡ self.old.armed)
            (λ got. self.new.armed ≡ armed_after got self.old.armed) }
    {
        match self.waiting.take_priority(selection) {
            None => None,
            Some(got) => {
                end_timer(&mut self.timers, &got);
                Some(got)
            }
        }
    }

    /// Ends the port: what waits is discarded, no timer is active, and later puts have no effect.
    pub fn stop(&mut self)
        ensures state { self.new.state ≡ stopped self.old.state }
        ensures armed { self.new.armed ≡ [] }
    {
        self.waiting.clear();
        self.timers.clear();
        self.alive = false;
    }

    /// Whether nothing waits.
    #[inline(always)]
    #[tactic(auto, using(crate::proofs::TakenAtOnce::none_waits, crate::proofs::TakenAtOnce::some_waits))]
    pub fn is_empty(&self) -> bool
        ensures empty { result ≡ true → self.now.state.waiting ≡ [] }
        ensures waits { result ≡ false → 0 < length self.now.state.waiting }
    {
        self.waiting.is_empty()
    }

    /// How many entries wait.
    pub fn waiting_len(&self) -> usize
        ensures { result ≡ length self.now.state.waiting }
    {
        self.waiting.len()
    }

    /// Gives all that waits, in order, and the table of the active timers. Each timer's signal among it is that of the one
    /// active timer of its key, and stands there once. Takes no memory.
    pub fn into_parts(self) -> PortParts
        ensures waiting { result.waiting.items ≡ self.state.waiting }
        ensures timers { result.timers ≡ record { timers = self.state.timers; armed = self.armed } }
        ensures coherent { IsCoherent result.waiting.items result.timers.timers }
    {
        let PlainPort {
            waiting,
            timers,
            ..
        } = self;
        PortParts {
            waiting: waiting.into_deque(),
            timers,
        }
    }
}

/// The answer of a take for an entry that was taken out, by its class.
fn taken_as(class: Class, got: Got) -> Taken
    ensures { result ≡ taken_as class got }
{
    match class {
        Class::Discard => Taken::Discarded(got),
        _ => Taken::Consumed(got),
    }
}

/// Takes the signal of this timer out, if there is one.
fn forget_signal(waiting: &mut Backlog, waited: Option<TimerKey>)
    requires { IfSome waited (λ key. length (filter (is_signal_of key) (waiting_in waiting.old)) ≤ 1) }
    ensures { MatchOption waited (waiting_in waiting.new ≡ waiting_in waiting.old)
        (λ key. waiting_in waiting.new ≡ without_signal key (waiting_in waiting.old)) }
{
    if let Some(key) = waited {
        waiting.forget(&key);
    }
}

/// A timer whose signal is taken is active no longer.
fn end_timer(timers: &mut Timers, got: &Got)
    ensures timers { timers.new.timers ≡ after_taking got.now timers.old.timers }
    ensures armed { timers.new.armed ≡ armed_after got.now timers.old.armed }
{
    if let Got::Timer(key) = got {
        timers.remove(key);
    }
}
