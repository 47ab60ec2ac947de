//! Who lives (Z.101: agent instance set).

ghost use Rattle.std.specs.Prelude.{◌≡◌, ◌+◌, ◌-◌, ◌^◌, ◌<◌, IfOk, replicate, slice_set};
ghost use Rattle.run_semantics.specs.World.{count_in, is_full, number_for, with_one_more};
ghost use Rattle.sdl_system.specs.Route.{living_in};

use sdl_system::{ProcessId, System};
use std::alloc::{AllocError, Global};
use std::marker::Model;

/// The instances that a run may have in all.
const MOST_INSTANCES: u32 = 1_000;

/// For each process the least number of its living instances, and how many live; and how many numbers were given.
#[derive(Drop)]
pub struct Living {
    least: Vec<Option<u32>>,
    counts: Vec<u32>,
    given: u32,
}

impl Model for Living {
    ghost use Rattle.serial_run.specs.Counts.{AreUpTo};
    ghost use Rattle.run_semantics.specs.World as runs;

    ghost Value = { runs.Living };

    ghost view = { λ c. record { least = c.least.items; counts = c.counts.items; given = c.given } };

    ghost invariant = { λ c. AreUpTo c.given c.counts.items };
}

impl Living {
    /// Nobody lives, of so many processes.
    pub fn new(alloc: Global, processes: usize) -> Result<Self, AllocError>
        ensures { IfOk result (λ living. living ≡ record {
          least = replicate processes None;
          counts = replicate processes 0;
          given = 0;
        }) }
    {
        Ok(Living {
            least: vec![in alloc; None; processes]?,
            counts: vec![in alloc; 0; processes]?,
            given: 0,
        })
    }

    /// A copy.
    pub fn copied(&self) -> Result<Self, AllocError>
        ensures { IfOk result (λ copy. copy ≡ self.now) }
    {
        Ok(Living {
            least: self.least.clone()?,
            counts: self.counts.clone()?,
            given: self.given,
        })
    }

    /// How many numbers were given.
    pub fn given(&self) -> u32
        ensures { result ≡ self.now.given }
    {
        self.given
    }

    /// For each process by its number, the least number of its living instances.
    pub fn least(&self) -> &[Option<u32>]
        ensures { result.now ≡ self.now.least }
    {
        &self.least
    }

    /// The least number of a living instance of a process.
    pub fn least_of(&self, process: ProcessId) -> Option<u32>
        ensures { result ≡ living_in self.now.least process }
    {
        self.least.get(process.0 as usize).copied().flatten()
    }

    /// The number of a new instance of a process: the next that wasn't given. None: as many live as may, or all numbers
    /// were given.
    pub fn number_for(&self, system: &System, process: ProcessId) -> Option<u32>
        ensures { result ≡ number_for system.now self.now process }
    {
        if self.is_full(system, process) {
            return None;
        }
        Some(self.given + 1)
    }

    fn is_full(&self, system: &System, process: ProcessId) -> bool
        ensures { result ≡ is_full system.now self.now process }
    {
        let Some(definition) = system.process(process) else {
            return true;
        };
        let reached = match definition.maximum {
            Some(most) => most <= self.count(process),
            None => false,
        };
        reached || MOST_INSTANCES <= self.given
    }

    fn count(&self, process: ProcessId) -> u32
        ensures { result ≡ count_in self.now process }
    {
        self.counts.get(process.0 as usize).copied().unwrap_or(0)
    }

    /// An instance of the process is made, with the next number.
    pub fn add(&mut self, process: ProcessId)
        requires { self.old.given + 1 < 2 ^ 32 }
        ensures { self.new ≡ with_one_more self.old process }
    {
        let place = process.0 as usize;
        let number = self.given + 1;
        let least = self.least_of(process).or(Some(number));
        let count = self.count(process) + 1;
        put(&mut self.least, place, least);
        put(&mut self.counts, place, count);
        self.given = number;
    }

    /// An instance of the process has ended, and this is now the least living one.
    pub fn remove(&mut self, process: ProcessId, least: Option<u32>)
        ensures { self.new ≡ record self.old {
          least = slice_set self.old.least process.0 least;
          counts = slice_set self.old.counts process.0 (count_in self.old process - 1);
        } }
    {
        let place = process.0 as usize;
        let count = self.count(process).saturating_sub(1);
        put(&mut self.least, place, least);
        put(&mut self.counts, place, count);
    }
}

/// Writes a value at a place, where there is one.
fn put<T: Drop>(list: &mut [T], place: usize, value: T)
    ensures { list.new ≡ slice_set list.old place value }
{
    if place < list.len() {
        list[place] = value;
    }
}
