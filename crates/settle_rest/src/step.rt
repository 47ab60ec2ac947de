//! A step of an instance that is in its slot.

ghost use Rattle.std.specs.Prelude.{◌≡◌, ◌⊎◌, ◌+◌, ◌<◌, ◌≤◌, ℕ, Contains, IfOk, IsTrue, OnOk, false, length};
ghost use Rattle.serial_sweeps.specs.Sweeps.{IsNoFuseBefore};
ghost use Rattle.serial_sweeps.specs.declared.instance_set.Made.TheVariants.{Transition};
ghost use Rattle.settle_rest.specs.Noted.{HasNotedAs};
ghost use Rattle.settle_rest.specs.Woken.{AreNumbers};
ghost use Rattle.threads_shared.specs.Noting.{HasNoted, StepsAt};

use crate::instances::Rest;
use crate::waking::{arm_all, wake, wake_all};
use port_model::Ticks;
use run_record::RunError;
use sdl_interp::Stepped;
use serial_sweeps::{Agenda, Made};
use std::alloc::AllocError;
use std::sync::Wait;
use threads_ports::Run;
use threads_shared::{Own, Seated, Shared, StepRuntime, note_stepped};

impl<'w, 'l, 's, 'p, 'e, J: Run, R: Wait + Copy> Rest<'w, 'l, 's, 'p, 'e, J, R> {
    /// One step of the instance that is in the slot of this number, and all that comes after it. If none is there,
    /// nobody of this number has anything to do.
    pub fn step_at(&mut self, agenda: &mut Agenda, number: u32) -> Result<Made, RunError>
        requires fits { AreNumbers agenda.old.ready }
        requires ready { Contains agenda.old.ready number }
        ensures fits { OnOk result (AreNumbers agenda.new.ready) }
        ensures clock { agenda.new.clock ≡ agenda.old.clock }
        ensures fuses { (until : ℕ) → until ≤ agenda.old.clock + 1 → IsNoFuseBefore until agenda.old.fuses
            → OnOk result (IsNoFuseBefore until agenda.new.fuses) }
        ensures fewer { IfOk result (λ made. (made ≡ Transition) ⊎ (length agenda.new.ready < length agenda.old.ready)) }
        ensures environment { self.new.environment ≡ self.old.environment }
        ensures given { self.old.given ≤ self.new.given }
    {
        let shared = self.shared;
        let Some(slot) = shared.slots.of(number) else {
            agenda.ready.rest(number);
            return Ok(Made::Nothing);
        };
        // The threads are joined, so the lock is free.
        let mut guard = slot.lock_joined(shared.rt);
        let Some(seated) = guard.as_mut() else {
            agenda.ready.rest(number);
            return Ok(Made::Nothing);
        };
        self.step_of(agenda, number, seated)
    }

    /// One step of an instance: its fuses wait, whom it has sent something or created is woken, and who has ended lives
    /// no more. Where the course of the run is kept, the step is noted there.
    fn step_of(
        &mut self,
        agenda: &mut Agenda,
        number: u32,
        seated: &mut Seated<'s, 'p, J, R>,
    ) -> Result<Made, RunError>
        requires fits { AreNumbers agenda.old.ready }
        requires ready { Contains agenda.old.ready number }
        ensures fits { OnOk result (AreNumbers agenda.new.ready) }
        ensures clock { agenda.new.clock ≡ agenda.old.clock }
        ensures fuses { (until : ℕ) → until ≤ agenda.old.clock + 1 → IsNoFuseBefore until agenda.old.fuses
            → OnOk result (IsNoFuseBefore until agenda.new.fuses) }
        ensures fewer { IfOk result (λ made. (made ≡ Transition) ⊎ (length agenda.new.ready < length agenda.old.ready)) }
        ensures environment { self.new.environment ≡ self.old.environment }
        ensures given { self.old.given ≤ self.new.given }
        ensures off { self.old.shared.now.keeps_course ≡ false → seated.new.value.course ≡ seated.old.value.course }
        ensures noted { IsTrue self.old.shared.now.keeps_course
            → IfOk result (λ made. HasNotedAs made seated.old.value seated.new.value) }
    {
        let told = seated.trace().len();
        let stepped = self.step_noted(seated, agenda.clock);
        arm_all(agenda, &mut self.own.fuses)?;
        match stepped {
            Stepped::Idle => {
                agenda.ready.rest(number);
                return Ok(Made::Nothing);
            }
            Stepped::Moved => {}
            Stepped::Ended { counts } => {
                agenda.ready.rest(number);
                if !counts {
                    return Ok(Made::Failure);
                }
            }
        }
        self.wake_created(agenda)?;
        wake_all(&mut agenda.ready, seated.trace().receivers_from(told))?;
        Ok(Made::Transition)
    }

    /// One step of an instance at this time. If it is recorded, it is noted where the course of the run is kept. The
    /// fuses of its timers and the tickets of whom it has created are in this thread's hand then, and who has ended
    /// lives no more.
    fn step_noted(&mut self, seated: &mut Seated<'s, 'p, J, R>, time: Ticks) -> Stepped
        ensures off { self.old.shared.now.keeps_course ≡ false → seated.new.value.course ≡ seated.old.value.course }
        ensures noted { IsTrue self.old.shared.now.keeps_course
            → HasNoted result seated.old.value seated.new.value }
        ensures environment { self.new.environment ≡ self.old.environment }
        ensures given { self.new.given ≡ self.old.given }
    {
        let told = seated.trace().len();
        let stepped = step(self.shared, self.own, seated, time);
        note_stepped(self.shared, self.own, seated, stepped, told);
        stepped
    }

    /// Whom a step has created has a number now, and has its start to make.
    fn wake_created(&mut self, agenda: &mut Agenda) -> Result<(), AllocError>
        ensures numbers { AreNumbers agenda.old.ready → AreNumbers agenda.new.ready }
        ensures kept { (n : ℕ) → Contains agenda.old.ready n → Contains agenda.new.ready n }
        ensures clock { agenda.new.clock ≡ agenda.old.clock }
        ensures fuses { agenda.new.fuses ≡ agenda.old.fuses }
        ensures environment { self.new.environment ≡ self.old.environment }
        ensures given { self.old.given ≤ self.new.given }
    {
        while let Some(ticket) = self.own.hand.pop_front() {
            let number = ticket.number();
            // No thread steps it any more. The injector keeps its ticket until the slots have all of them back.
            let _ = self.shared.queue(ticket);
            self.given = self.given.max(number);
            wake(&mut agenda.ready, number)?;
        }
        Ok(())
    }
}

/// One step of an instance at this time. The fuses of its timers and the tickets of whom it has created are in this
/// thread's hand then.
fn step<'s, 'p, J: Run, R: Wait + Copy>(
    shared: &Shared<'_, 's, 'p, J, R>,
    own: &mut Own<J>,
    seated: &mut Seated<'s, 'p, J, R>,
    time: Ticks,
) -> Stepped
    ensures course { seated.new.value.course ≡ seated.old.value.course }
    ensures steps { StepsAt time result seated.old.value seated.new.value }
{
    let mut runtime = StepRuntime { shared, own };
    seated.step(shared.alloc, shared.rt, &mut runtime, time)
}
