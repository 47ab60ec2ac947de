//! From where the rest of a run goes on.

ghost use Rattle.std.specs.Prelude.{◌≡◌, ◌<◌, Contains, IfOk, OnOk};
ghost use Rattle.sdl_script.specs.Script.{end_of};
ghost use Rattle.settle_rest.specs.Woken.{AreNumbers, AreUpTo};

use crate::waking::wake;
use port_model::Ticks;
use sdl_script::ScriptLine;
use sdl_timers::Wheel;
use serial_sweeps::ReadySet;
use std::alloc::{AllocError, Global};
use std::mem;
use std::sync::{Mutex, Wait};
use threads_ports::Entries;

/// How many numbers there are.
const MOST_NUMBERS: u32 = 1_000;

/// The instances of a run, each of which may have something to do, and the greatest of their numbers.
#[derive(Drop)]
pub struct Entrants {
    pub ready: ReadySet,
    pub greatest: u32,
}

/// All instances that are entered. Refused for lack of memory.
pub fn all_entered(alloc: Global, entries: &Entries) -> Result<Entrants, AllocError>
    ensures numbers { IfOk result (λ all. AreNumbers all.ready) }
    ensures greatest { IfOk result (λ all. AreUpTo all.greatest all.ready) }
{
    let mut all = Entrants {
        ready: ReadySet::new(alloc),
        greatest: 0,
    };
    for number in 1..=MOST_NUMBERS {
        if entries.find(number).is_none() {
            continue;
        }
        all.add(number)?;
    }
    Ok(all)
}

impl Entrants {
    /// One more.
    fn add(&mut self, number: u32) -> Result<(), AllocError>
        ensures ready { OnOk result (0 < number → Contains self.new.ready number) }
        ensures numbers { AreNumbers self.old.ready → AreNumbers self.new.ready }
        ensures greatest { AreUpTo self.old.greatest self.old.ready → AreUpTo self.new.greatest self.new.ready }
    {
        self.greatest = self.greatest.max(number);
        wake(&mut self.ready, number)
    }
}

/// Takes out the fuses that wait.
pub fn take_fuses<R: Wait>(alloc: Global, rt: &R, wheel: &Mutex<Wheel>) -> Wheel {
    // The threads are joined, so the lock is free, and each fuse is in the wheel.
    mem::replace(&mut *wheel.lock(rt), Wheel::new(alloc))
}

/// Puts back the fuses that wait still, so that the run can go on from there.
pub fn put_fuses<R: Wait>(rt: &R, wheel: &Mutex<Wheel>, fuses: Wheel) {
    // The lock is free, and the wheel has no fuse. After: it has these.
    *wheel.lock(rt) = fuses;
}

/// The time of the last line, and 0 if there is none.
pub fn end_of(lines: &[ScriptLine]) -> Ticks
    ensures { result ≡ end_of lines.now }
{
    lines.last().map_or(Ticks::new(0), |line| line.at)
}
