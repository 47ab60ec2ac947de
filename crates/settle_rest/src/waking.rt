//! Who has something to do after a step, and which fuses wait.

ghost use Rattle.std.specs.Prelude.{◌≡◌, ◌⊎◌, ◌↔◌, ◌+◌, ◌<◌, ◌≤◌, [], ℕ, All, Contains, OnErr, OnOk};
ghost use Rattle.sdl_timers.specs.DueOrder.{with_fuse};
ghost use Rattle.serial_sweeps.specs.Sweeps.{IsNoFuseBefore};
ghost use Rattle.settle_rest.specs.Woken.{AreAwake, AreNumbers, with_fuses};

use port_model::Fuse;
use run_record::Receivers;
use serial_sweeps::{Agenda, ReadySet};
use std::alloc::AllocError;

/// The instance of this number may have something to do. No instance has the number 0. For lack of memory nothing changes.
pub fn wake(ready: &mut ReadySet, number: u32) -> Result<(), AllocError>
    ensures ok { OnOk result ((n : ℕ) → Contains ready.new n ↔ (((0 < n) × (n ≡ number)) ⊎ Contains ready.old n)) }
    ensures err { OnErr result (ready.new ≡ ready.old) }
    ensures kept { (n : ℕ) → Contains ready.old n → Contains ready.new n }
    ensures numbers { AreNumbers ready.old → AreNumbers ready.new }
{
    if number == 0 {
        return Ok(());
    }
    ready.wake(number)
}

/// Wakes whom a step has sent something.
pub fn wake_all(ready: &mut ReadySet, receivers: Receivers<'_>) -> Result<(), AllocError>
    ensures awake { OnOk result (AreAwake ready.new receivers.entry) }
    ensures kept { (n : ℕ) → Contains ready.old n → Contains ready.new n }
    ensures numbers { AreNumbers ready.old → AreNumbers ready.new }
{
    for number in receivers {
        wake(ready, number)?;
    }
    Ok(())
}

/// The fuses of a step wait for their time. A fuse whose time has come was left over, since memory found no room in its
/// port.
pub fn arm_all(agenda: &mut Agenda, fuses: &mut Vec<Fuse>) -> Result<(), AllocError>
    ensures clock { agenda.new.clock ≡ agenda.old.clock }
    ensures ready { agenda.new.ready ≡ agenda.old.ready }
    ensures armed { OnOk result (agenda.new.fuses ≡ with_fuses fuses.old.items agenda.old.fuses) }
    ensures later { OnOk result (All (λ fuse. agenda.old.clock < fuse.due) fuses.old.items) }
    ensures none { OnOk result (fuses.new.items ≡ []) }
    ensures before { (until : ℕ) → until ≤ agenda.old.clock + 1 → IsNoFuseBefore until agenda.old.fuses
        → OnOk result (IsNoFuseBefore until agenda.new.fuses) }
{
    while let Some(fuse) = fuses.pop() {
        arm(agenda, fuse)?;
    }
    Ok(())
}

/// A fuse waits for its time, which has not come.
fn arm(agenda: &mut Agenda, fuse: Fuse) -> Result<(), AllocError>
    ensures clock { agenda.new.clock ≡ agenda.old.clock }
    ensures ready { agenda.new.ready ≡ agenda.old.ready }
    ensures armed { OnOk result (agenda.new.fuses ≡ with_fuse fuse agenda.old.fuses) }
    ensures later { OnOk result (agenda.old.clock < fuse.due) }
{
    if fuse.due() <= agenda.clock {
        return Err(AllocError);
    }
    match agenda.fuses.arm(fuse) {
        Ok(()) => Ok(()),
        Err(_) => Err(AllocError),
    }
}
