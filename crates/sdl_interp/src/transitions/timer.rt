//! Timers (Z.102: set, reset).

ghost use Rattle.std.specs.Prelude.{◌≡◌, ◌⊎◌, ◌∷◌, [], IfErr, IfOk, List, OnErr, OnOk, Ok, Err, map};
ghost use Rattle.run_record.specs.Knowledge.{environment_of};
ghost use Rattle.run_semantics.specs.Fails.{due_by, later, ticks};
ghost use Rattle.run_semantics.specs.World.{WorldValue};
ghost use Rattle.sdl_interp.specs.Running.{GoesOn, StaysAmid, WorksSame};
ghost use Rattle.sdl_interp.specs.Work.{FailsHere, WorksAmiss, WorksTo, amid};
ghost use Rattle.sdl_system.specs.Body as body;
ghost use Rattle.sdl_system.specs.Table.{setting, timing, when_due};

use crate::transitions::machine::make_room;
use crate::transitions::running::Core;
use port_model::{Inbox, PortError, Ticks};
use run_record::{Failure, Knowledge, evaluate_at, evaluate_key};
use run_semantics::World;
use sdl_system::{Due, Setting, Sort, TimerUse, number_of};
use std::alloc::Global;

impl<'s, P: Inbox + Drop> Core<'s, P> {
    /// Sets each timer, one after the other.
    #[inline(never)]
    pub(crate) fn set_all<W: World>(
        &mut self,
        alloc: Global,
        settings: &[Setting],
        world: &mut W,
    ) -> Result<(), Failure>
        requires { GoesOn P.owning P.since self.old }
        ensures amid { StaysAmid P.owning P.since self.old self.new }
        ensures ok { let all = map setting settings.now in
            OnOk result (WorksTo P.owning (amid (body.set all)) self.old (W.value world.old)
            (amid (body.set [])) self.new (W.value world.new)) }
        ensures err { let all = map setting settings.now in
            IfErr result
            (WorksAmiss P.owning (amid (body.set all)) self.old (W.value world.old) self.new (W.value world.new)) }
    {
        for setting in settings {
            self.set(alloc, setting, world)?;
        }
        Ok(())
    }

    /// When the timer is due is evaluated first, then its values. A time that has come expires at once, by its fuse.
    fn set<W: World>(&mut self, alloc: Global, one: &Setting, world: &mut W) -> Result<(), Failure>
        requires { GoesOn P.owning P.since self.old }
        ensures amid { StaysAmid P.owning P.since self.old self.new }
        ensures ok { OnOk result ((more : List body.Setting)
            → WorksTo P.owning (amid (body.set (setting one.now ∷ more))) self.old (W.value world.old)
            (amid (body.set more)) self.new (W.value world.new)) }
        ensures err { IfErr result (λ why. (more : List body.Setting)
            → FailsHere P.owning (amid (body.set (setting one.now ∷ more))) self.old why) }
        ensures same { OnErr result (WorksSame P.owning self.old self.new) }
        ensures quiet { OnErr result (W.value world.new ≡ W.value world.old) }
    {
        let due = due_by(alloc, &one.due, &self.knowledge())?;
        let timer = &one.timer;
        let key = evaluate_key(alloc, timer.timer, &timer.values, &self.knowledge())?;
        make_room(&mut self.machine, key.values.len())?;
        if let Err(_) = world.prepare() {
            return Err(Failure::Memory);
        }
        let fuse = match self.inbox.set(key, due) {
            Ok(fuse) => fuse,
            Err(PortError::SetsSpent) => return Err(Failure::SetsSpent),
            Err(_) => return Err(Failure::Memory),
        };
        self.machine.trace.set(fuse.key(), due);
        world.arm(fuse);
        Ok(())
    }

    /// Resets each timer, one after the other.
    #[inline(never)]
    pub(crate) fn reset_all(&mut self, alloc: Global, timers: &[TimerUse]) -> Result<(), Failure>
        requires { GoesOn P.owning P.since self.old }
        ensures amid { StaysAmid P.owning P.since self.old self.new }
        ensures ok { let all = map timing timers.now in
            OnOk result ((w : WorldValue)
            → WorksTo P.owning (amid (body.reset all)) self.old w (amid (body.reset [])) self.new w) }
        ensures err { let all = map timing timers.now in
            IfErr result (λ why. (w : WorldValue)
            → WorksAmiss P.owning (amid (body.reset all)) self.old w self.new w why) }
    {
        for timer in timers {
            self.reset(alloc, timer)?;
        }
        Ok(())
    }

    fn reset(&mut self, alloc: Global, one: &TimerUse) -> Result<(), Failure>
        requires { GoesOn P.owning P.since self.old }
        ensures amid { StaysAmid P.owning P.since self.old self.new }
        ensures ok { OnOk result ((more : List body.Timing) (w : WorldValue)
            → WorksTo P.owning (amid (body.reset (timing one.now ∷ more))) self.old w
            (amid (body.reset more)) self.new w) }
        ensures err { IfErr result (λ why. (more : List body.Timing)
            → FailsHere P.owning (amid (body.reset (timing one.now ∷ more))) self.old why) }
        ensures same { OnErr result (WorksSame P.owning self.old self.new) }
    {
        let key = evaluate_key(alloc, one.timer, &one.values, &self.knowledge())?;
        make_room(&mut self.machine, key.values.len())?;
        self.inbox.reset(&key);
        self.machine.trace.reset(&key);
        Ok(())
    }
}

/// When a timer is due.
fn due_by<P: Inbox>(
    alloc: Global,
    due: &Due,
    knowledge: &Knowledge<'_, P>,
) -> Result<Ticks, Failure>
    ensures ok { IfOk result (λ ticks. due_by (environment_of knowledge.now) (when_due due.now) ≡ Ok ticks) }
    ensures err { let here = environment_of knowledge.now in
        IfErr result (λ why. (why ≡ Failure.Memory) ⊎ (due_by here (when_due due.now) ≡ Err why)) }
{
    match due {
        Due::At(time) => {
            let value = evaluate_at(alloc, time, Some(Sort::Time), knowledge)?;
            Ok(ticks(number_of(value)))
        }
        Due::After(duration) => Ok(ticks(later(knowledge.store().time, *duration)?)),
    }
}

/// A time from the start on; a negative one counts as 0.
fn ticks(number: i64) -> Ticks
    ensures { result ≡ ticks number }
{
    Ticks::new(u64::try_from(number).unwrap_or(0))
}

/// A time so many ticks later, or earlier.
fn later(now: Ticks, duration: i64) -> Result<i64, Failure>
    ensures { result ≡ later now duration }
{
    let Ok(now) = i64::try_from(now.get()) else {
        return Err(Failure::Overflow);
    };
    now.checked_add(duration).ok_or(Failure::Overflow)
}
