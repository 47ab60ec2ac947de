//! The clock and the script.

ghost use Rattle.std.specs.Prelude.{◌≡◌, ◌<◌, ◌+◌, ◌⊎◌, ℕ, [], IfNone, IfOk, IfSome, IsTrue, OnOk};
ghost use Rattle.serial_sweeps.specs.Sweeps.{IsNextTime, IsNoFuseBefore, IsNoLineBefore, IsNothingDue, moment_of};

use crate::instance_set::InstanceSet;
use crate::scheduler::Scheduler;
use port_model::Ticks;
use std::alloc::Global;

impl<'s> Scheduler<'s> {
    /// Runs until all instances rest, the script is at its end and no fuse is due by the time `last` of its last line,
    /// and says whether they do: else no transition is left.
    pub fn run<A: InstanceSet>(
        &mut self,
        alloc: Global,
        instances: &mut A,
        last: Ticks,
    ) -> Result<bool, A::Error>
        requires fits { A.Fits self.old.agenda.ready instances.old }
        requires due { IsNothingDue (moment_of self.old) }
        ensures fits { OnOk result (A.Fits self.new.agenda.ready instances.new) }
        ensures runs { OnOk result (A.Reaches last (moment_of self.old) instances.old (moment_of self.new) instances.new) }
        ensures whole { IfOk result (λ whole. IsTrue whole → A.AllRest instances.new × (self.new.script.now ≡ [])
            × IsNoFuseBefore (last + 1) self.new.agenda.fuses × (0 < self.new.left)) }
        ensures cut { IfOk result (λ whole. IsTrue whole ⊎ (self.new.left ≡ 0)) }
    {
        while self.settle(alloc, instances)? {
            let Some(time) = self.next_time(last) else {
                return Ok(true);
            };
            self.advance(instances, time)?;
        }
        Ok(false)
    }

    /// The sooner of the least time of a fuse and the next line's. None where the script is at its end and no fuse is
    /// due by the time `last` of its last line.
    fn next_time(&self, last: Ticks) -> Option<Ticks>
        ensures next { IfSome result (λ time. IsNextTime last (moment_of self.now) time) }
        ensures none { IfNone result ((self.now.script.now ≡ []) × IsNoFuseBefore (last + 1) self.now.agenda.fuses) }
    {
        let due = self.agenda.fuses.next_due();
        let Some(line) = self.script.first() else {
            return match due {
                None => None,
                Some(due) if last < due => None,
                Some(due) => Some(due),
            };
        };
        match due {
            Some(due) => Some(Ticks::earlier_of(due, line.at)),
            None => Some(line.at),
        }
    }

    /// Moves the clock to the next time, and does what is due then. A new sweep begins behind it.
    fn advance<A: InstanceSet>(&mut self, instances: &mut A, time: Ticks) -> Result<(), A::Error>
        requires fits { A.Fits self.old.agenda.ready instances.old }
        requires due { IsNothingDue (moment_of self.old) }
        requires rest { A.AllRest instances.old }
        requires left { 0 < self.old.left }
        ensures fits { OnOk result (A.Fits self.new.agenda.ready instances.new) }
        ensures due { OnOk result (IsNothingDue (moment_of self.new)) }
        ensures runs { (last : ℕ) → IsNextTime last (moment_of self.old) time
            → OnOk result (A.Reaches last (moment_of self.old) instances.old (moment_of self.new) instances.new) }
        ensures clock { self.new.agenda.clock ≡ time }
        ensures begun { IsTrue self.new.begun }
    {
        self.agenda.clock = time;
        self.begun = true;
        self.turn = 0;
        self.bound = instances.given();
        self.catch_up(instances)
    }

    /// Does what is due by the clock's time, once the script has begun: the fuses expire, in due order, and then the
    /// lines are heard, in theirs.
    pub fn catch_up<A: InstanceSet>(&mut self, instances: &mut A) -> Result<(), A::Error>
        requires fits { A.Fits self.old.agenda.ready instances.old }
        requires begun { IsTrue self.old.begun }
        requires left { 0 < self.old.left }
        ensures fits { OnOk result (A.Fits self.new.agenda.ready instances.new) }
        ensures due { OnOk result (IsNothingDue (moment_of self.new)) }
        ensures runs { (last : ℕ) → OnOk result (A.Reaches last (moment_of self.old) instances.old
            (moment_of self.new) instances.new) }
        ensures clock { self.new.agenda.clock ≡ self.old.agenda.clock }
        ensures begun { self.new.begun ≡ self.old.begun }
    {
        self.expire_all(instances)?;
        self.hear_all(instances)?;
        Ok(())
    }

    /// The fuses expire whose time has come, in due order.
    fn expire_all<A: InstanceSet>(&mut self, instances: &mut A) -> Result<(), A::Error>
        requires fits { A.Fits self.old.agenda.ready instances.old }
        requires begun { IsTrue self.old.begun }
        requires left { 0 < self.old.left }
        ensures fits { OnOk result (A.Fits self.new.agenda.ready instances.new) }
        ensures clock { self.new.agenda.clock ≡ self.old.agenda.clock }
        ensures begun { self.new.begun ≡ self.old.begun }
        ensures left { self.new.left ≡ self.old.left }
        ensures runs { (last : ℕ) → OnOk result (A.Reaches last (moment_of self.old) instances.old
            (moment_of self.new) instances.new) }
        ensures done { OnOk result (IsNoFuseBefore (self.new.agenda.clock + 1) self.new.agenda.fuses) }
    {
        while let Some(fuse) = self.agenda.fuses.fire(self.agenda.clock) {
            instances.expire(&mut self.agenda, fuse)?;
        }
        Ok(())
    }

    /// The lines are heard whose time has come, in their order.
    fn hear_all<A: InstanceSet>(&mut self, instances: &mut A) -> Result<(), A::Error>
        requires fits { A.Fits self.old.agenda.ready instances.old }
        requires begun { IsTrue self.old.begun }
        requires left { 0 < self.old.left }
        requires fuses { IsNoFuseBefore (self.old.agenda.clock + 1) self.old.agenda.fuses }
        ensures fits { OnOk result (A.Fits self.new.agenda.ready instances.new) }
        ensures clock { self.new.agenda.clock ≡ self.old.agenda.clock }
        ensures begun { self.new.begun ≡ self.old.begun }
        ensures fuses { self.new.agenda.fuses ≡ self.old.agenda.fuses }
        ensures runs { (last : ℕ) → OnOk result (A.Reaches last (moment_of self.old) instances.old
            (moment_of self.new) instances.new) }
        ensures done { OnOk result (IsNoLineBefore (self.new.agenda.clock + 1) self.new.script.now) }
    {
        while let Some((line, later)) = self.script.split_first() {
            if self.agenda.clock < line.at {
                break;
            }
            self.script = later;
            instances.hear(&mut self.agenda, line)?;
        }
        Ok(())
    }
}
