//! The table of a port's active timers. Each call takes a time that is logarithmic in their number.
ghost use Rattle.std.specs.Prelude.{◌≡◌, ◌==◌, ◌&&◌, not, ◌<◌, ◌∷◌, [], true, false, if◌then◌else◌, All, MatchOption, MatchResult, IfOk, IfSome};
ghost use Rattle.std.specs.BTreeSet.{contains};
ghost use Rattle.port_model.specs.Table.{deadline_order, is_until};
ghost use Rattle.port_model.specs.Timers.{armed_for, due_times, is_active, is_running, waits, with_armed, with_running, with_waiting, without_armed, without_key, Armed, IsLeast};
ghost use Rattle.port_model.specs.declared.deadline.Deadline.{Deadline};

use crate::deadline::Deadline;
use crate::values::{Arm, Ticks, TimerKey};
use std::alloc::{AllocError, Global};
use std::collections::{BTreeMap, BTreeSet};
use std::marker::Model;

/// The entry of a table for an active timer: its set, its due time, and whether it has expired, so that its signal waits.
#[derive(Clone, Copy)]
pub struct Timer {
    pub arm: Arm,
    pub due: Ticks,
    pub waits: bool,
}

impl Timer {
    fn runs_by(&self, arm: Arm, due: Ticks) -> bool
        ensures { result ≡ (not self.now.waits && (self.now.arm == arm && self.now.due == due)) }
    {
        !self.waits && self.arm == arm && self.due == due
    }
}

/// The active timers by their keys, and the due times of those that run. The end of a port gives the signal of a timer
/// back with its fuse, so the number of the set and the due time stay while the signal waits.
#[derive(Drop)]
pub struct Timers {
    table: BTreeMap<TimerKey, Timer>,
    deadlines: BTreeSet<Deadline>,
}

impl Model for Timers {
    ghost use Rattle.std.specs.Prelude.{map};
    ghost use Rattle.std.specs.BTreeSet.{contains};
    ghost use Rattle.port_model.specs.Table.{active_of, armed_of, deadline_order, in_order, IsTable, TimersValue};

    ghost Value = { TimersValue };

    ghost view = { λ t. record {
      timers = map active_of (in_order t.table.entries);
      armed = map armed_of (in_order t.table.entries);
    } };

    ghost invariant = { λ t. IsTable t.table.entries (contains deadline_order t.deadlines) };
}

impl Timers {
    /// No timer is active. Takes no memory.
    pub fn new(alloc: Global) -> Self
        ensures { result ≡ record { timers = []; armed = [] } }
    {
        Timers {
            table: BTreeMap::new(alloc),
            deadlines: BTreeSet::new(alloc),
        }
    }

    /// Whether the timer of this key is active.
    pub fn active(&self, key: &TimerKey) -> bool
        ensures { result ≡ is_active key.now self.now.timers }
    {
        self.table.contains_key(key)
    }

    /// Whether it runs, by this set and until this time.
    pub fn runs(&self, key: &TimerKey, arm: Arm, due: Ticks) -> bool
        ensures { result ≡ is_running key.now arm due self.now.timers }
    {
        match self.table.get(key) {
            None => false,
            Some(timer) => timer.runs_by(arm, due),
        }
    }

    /// The entry of the timer of this key, if it is active.
    pub fn get(&self, key: &TimerKey) -> Option<Timer>
        ensures active { MatchOption result (is_active key.now self.now.timers ≡ false)
            (λ _. is_active key.now self.now.timers ≡ true) }
        ensures armed { MatchOption result (armed_for key.now self.now.armed ≡ [])
            (λ timer. armed_for key.now self.now.armed ≡ record {
              key = key.now;
              arm = timer.arm;
              due = timer.due;
            } ∷ []) }
        ensures waiting { IfSome result (λ timer. timer.waits ≡ waits key.now self.now.timers) }
    {
        match self.table.get(key) {
            None => None,
            Some(timer) => Some(*timer),
        }
    }

    /// The least due time of a timer that runs.
    pub fn next_due(&self) -> Option<Ticks>
        ensures { IsLeast (due_times self.now.timers) result }
    {
        match self.deadlines.first() {
            None => None,
            Some(deadline) => Some(deadline.due),
        }
    }

    /// Sets the timer of this key, which runs from then on by the set `arm` until `due`. That `arm` is past all sets
    /// in the table is the caller's condition. The key comes back where the signal of an older set waits; that is over
    /// now. Where memory is wanting, nothing changes.
    pub fn set(
        &mut self,
        key: TimerKey,
        arm: Arm,
        due: Ticks,
    ) -> Result<Option<TimerKey>, AllocError>
        requires { All (λ (armed : Armed). armed.arm < arm) self.old.armed }
        ensures timers { MatchResult result (λ _. self.new.timers ≡ with_running key arm due self.old.timers)
            (λ _. self.new ≡ self.old) }
        ensures armed { MatchResult result (λ _. self.new.armed ≡ with_armed key arm due self.old.armed)
            (λ _. self.new ≡ self.old) }
        ensures waited { MatchResult result (λ back. MatchOption back (waits key self.old.timers ≡ false)
            (λ k. (k ≡ key) × (waits key self.old.timers ≡ true))) (λ _. Unit {0}) }
    {
        if self.active(&key) {
            let waited = self.renew(&key, arm, due)?;
            return Ok(waited.then_some(key));
        }
        self.add(key, arm, due)?;
        Ok(None)
    }

    /// A set of a timer that isn't active.
    fn add(&mut self, key: TimerKey, arm: Arm, due: Ticks) -> Result<(), AllocError>
        requires inactive { is_active key self.old.timers ≡ false }
        requires later { All (λ (armed : Armed). armed.arm < arm) self.old.armed }
        ensures timers { MatchResult result (λ _. self.new.timers ≡ with_running key arm due self.old.timers)
            (λ _. self.new ≡ self.old) }
        ensures armed { MatchResult result (λ _. self.new.armed ≡ with_armed key arm due self.old.armed)
            (λ _. self.new ≡ self.old) }
    {
        if let Err(_) = self.deadlines.insert(Deadline { due, arm }) {
            return Err(AllocError);
        }
        let timer = Timer {
            arm,
            due,
            waits: false,
        };
        if let Err(_) = self.table.insert(key, timer) {
            unschedule(&mut self.deadlines, &timer);
            return Err(AllocError);
        }
        Ok(())
    }

    /// A set of one that is. The reply is whether its signal waits.
    fn renew(&mut self, key: &TimerKey, arm: Arm, due: Ticks) -> Result<bool, AllocError>
        requires active { is_active key.now self.old.timers ≡ true }
        requires later { All (λ (armed : Armed). armed.arm < arm) self.old.armed }
        ensures timers { MatchResult result (λ _. self.new.timers ≡ with_running key.now arm due self.old.timers)
            (λ _. self.new ≡ self.old) }
        ensures armed { MatchResult result (λ _. self.new.armed ≡ with_armed key.now arm due self.old.armed)
            (λ _. self.new ≡ self.old) }
        ensures waited { IfOk result (λ waited. waited ≡ waits key.now self.old.timers) }
    {
        if let Err(_) = self.deadlines.insert(Deadline { due, arm }) {
            return Err(AllocError);
        }
        let Some(timer) = self.table.get_mut(key) else {
            unreachable!()
        };
        let old = *timer;
        *timer = Timer {
            arm,
            due,
            waits: false,
        };
        unschedule(&mut self.deadlines, &old);
        Ok(old.waits)
    }

    /// Resets the timer of this key: it isn't active. The reply is whether its signal waits, which is over now.
    pub fn remove(&mut self, key: &TimerKey) -> bool
        ensures reply { result ≡ waits key.now self.old.timers }
        ensures timers { self.new.timers ≡ without_key key.now self.old.timers }
        ensures armed { self.new.armed ≡ without_armed key.now self.old.armed }
    {
        match self.table.remove(key) {
            None => false,
            Some(timer) => {
                unschedule(&mut self.deadlines, &timer);
                timer.waits
            }
        }
    }

    /// Expires the timer of this key, which runs by this set and until this time. Its signal waits from then on.
    pub fn expire(&mut self, key: &TimerKey, arm: Arm, due: Ticks)
        requires { is_running key.now arm due self.old.timers ≡ true }
        ensures timers { self.new.timers ≡ with_waiting key.now arm self.old.timers }
        ensures armed { self.new.armed ≡ self.old.armed }
    {
        let Some(timer) = self.table.get_mut(key) else {
            unreachable!()
        };
        let old = *timer;
        timer.waits = true;
        unschedule(&mut self.deadlines, &old);
    }

    /// No timer is active any more.
    pub fn clear(&mut self)
        ensures { self.new ≡ record { timers = []; armed = [] } }
    {
        self.table.clear();
        self.deadlines.clear();
    }
}

/// Takes the deadline of a timer out, if it runs.
fn unschedule(deadlines: &mut BTreeSet<Deadline>, timer: &Timer)
    ensures { (d : Deadline) → contains deadline_order deadlines.new d
        ≡ (if is_until timer.now d then false else contains deadline_order deadlines.old d) }
{
    if !timer.waits {
        let Timer { arm, due, .. } = *timer;
        deadlines.remove(&Deadline { due, arm });
    }
}
