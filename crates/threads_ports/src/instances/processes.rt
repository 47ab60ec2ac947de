//! The instances of each process of a system (Z.101: agent instance set).

ghost use Rattle.std.specs.Prelude.{◌≡◌, ◌<◌, ◌≤◌, All, IfOk, if◌then◌else◌};
ghost use Rattle.threads_ports.specs.Instances.{AreAscending, AreWithinLimit, with_one, without_one, with_reservation, without_reservation};
ghost use Rattle.threads_ports.specs.Roster.{can_live_in, has_room_in, least_living, lives_in, none_living, with_changed};
ghost use Rattle.sdl_system.specs.Route.{living_in};

use crate::instances::instances::Instances;
use sdl_system::{ProcessId, System};
use std::alloc::{AllocError, Global};
use std::marker::Model;

/// For each process by its number, who lives and how many creates are under way. Those that live and those that are
/// reserved are never more than the process's maximum.
#[derive(Drop)]
pub struct Processes {
    rows: Vec<Instances>,
    least: Vec<Option<u32>>,
}

impl Model for Processes {
    ghost use Rattle.std.specs.Prelude.{List};
    ghost use Rattle.threads_ports.specs.Instances.{InstancesValue};
    ghost use Rattle.threads_ports.specs.Roster.{IsKept};

    ghost Value = { List InstancesValue };

    ghost view = { λ p. p.rows.items };

    ghost invariant = { λ p. IsKept p.rows.items p.least.items };
}

impl Processes {
    /// Nobody lives in this system, and no create is under way. Refused for lack of memory.
    #[tactic(auto, using(crate::proofs::Made::made_more))]
    pub fn new(alloc: Global, system: &System) -> Result<Self, AllocError>
        ensures { IfOk result (λ made. made ≡ none_living system.now.processes) }
    {
        let mut rows = Vec::with_capacity(alloc, system.processes().len())?;
        let mut least = Vec::with_capacity(alloc, system.processes().len())?;
        for process in system.processes() {
            rows.push(Instances::new(process.maximum))?;
            least.push(None)?;
        }
        Ok(Processes { rows, least })
    }

    /// A reservation for one instance more of a process. False: those that live and those that are reserved are as many
    /// as its maximum allows, or the system has no such process; then nothing changes.
    pub fn reserve(&mut self, process: ProcessId) -> bool
        ensures room { result ≡ has_room_in self.old process }
        ensures after { self.new ≡ (if result then with_changed with_reservation self.old process else self.old) }
    {
        let Some(instances) = self.rows.get_mut(process.0 as usize) else {
            return false;
        };
        instances.reserve()
    }

    /// Gives a reservation back, since the create came to nothing.
    pub fn release(&mut self, process: ProcessId)
        ensures { self.new ≡ with_changed without_reservation self.old process }
    {
        let Some(instances) = self.rows.get_mut(process.0 as usize) else {
            return;
        };
        instances.release();
    }

    /// An instance of the process lives from now on, and a reservation is spent. False: there was no reservation, that
    /// number lives already, or the system has no such process; then nothing changes.
    pub fn live(&mut self, process: ProcessId, number: u32) -> bool
        requires { (0 < number) × (number ≤ 1000) }
        ensures can { result ≡ can_live_in self.old process number }
        ensures after { self.new ≡ (if result then with_changed (with_one number) self.old process else self.old) }
    {
        let place = process.0 as usize;
        let Some(instances) = self.rows.get_mut(place) else {
            return false;
        };
        if !instances.live(number) {
            return false;
        }
        self.least[place] = instances.least();
        true
    }

    /// An instance of the process lives no more. False: it didn't live, or the system has no such process; then nothing
    /// changes.
    pub fn end(&mut self, process: ProcessId, number: u32) -> bool
        ensures lived { result ≡ lives_in self.old process number }
        ensures after { self.new ≡ (if result then with_changed (without_one number) self.old process else self.old) }
    {
        let place = process.0 as usize;
        let Some(instances) = self.rows.get_mut(place) else {
            return false;
        };
        if !instances.end(number) {
            return false;
        }
        self.least[place] = instances.least();
        true
    }

    /// The least number of a living instance of the process.
    pub fn least(&self, process: ProcessId) -> Option<u32>
        ensures { result ≡ living_in (least_living self.now) process }
    {
        self.least.get(process.0 as usize).copied().flatten()
    }

    /// For each process by its number, the least number of its living instances.
    pub fn living(&self) -> &[Option<u32>]
        ensures least { result.now ≡ least_living self.now }
        ensures within { All AreWithinLimit self.now }
        ensures ascending { All AreAscending self.now }
    {
        &self.least
    }
}
