//! Who lives, how many creates are under way, and how often that has changed (Z.101: agent instance set; create).

ghost use Rattle.std.specs.Prelude.{◌≡◌, ◌<◌, ◌≤◌, All, IfOk, if◌then◌else◌};
ghost use Rattle.threads_ports.specs.Instances.{AreAscending, AreWithinLimit, with_one, without_one, with_reservation, without_reservation};
ghost use Rattle.threads_ports.specs.Roster.{can_live_in, has_room_in, least_living, lives_in, none_living, reserved_in, turned_in};
ghost use Rattle.sdl_system.specs.Route.{living_in};

use crate::instances::processes::Processes;
use sdl_system::{ProcessId, System};
use std::alloc::{AllocError, Global};
use std::marker::Model;

/// For each process by its number, who lives and how many creates are under way, and the roster's version: how often
/// somebody came to life or ended. Those that live and those that are reserved are never more than the process's maximum.
///
/// Who makes an instance reserves first. With a reservation the create can no more be refused for the maximum: it
/// comes to life, or the reservation is given back.
#[derive(Drop)]
pub struct Roster {
    processes: Processes,
    version: u64,
}

impl Model for Roster {
    ghost use Rattle.threads_ports.specs.Roster.{RosterValue};

    ghost Value = { RosterValue };

    ghost view = { λ roster. record { processes = roster.processes; version = roster.version } };
}

impl Roster {
    /// Nobody lives in this system, no create is under way, and nothing has changed so far. Refused for lack of memory.
    pub fn new(alloc: Global, system: &System) -> Result<Self, AllocError>
        ensures { IfOk result (λ roster. roster ≡ record { processes = none_living system.now.processes; version = 0 }) }
    {
        Ok(Roster {
            processes: Processes::new(alloc, system)?,
            version: 0,
        })
    }

    /// A reservation for one instance more of a process. False: those that live and those that are reserved are as many
    /// as its maximum allows, or the system has no such process; then nothing changes.
    pub fn reserve(&mut self, process: ProcessId) -> bool
        ensures room { result ≡ has_room_in self.old.processes process }
        ensures after { self.new ≡ (if result then reserved_in with_reservation self.old process else self.old) }
    {
        self.processes.reserve(process)
    }

    /// Gives a reservation back, since the create came to nothing.
    pub fn release(&mut self, process: ProcessId)
        ensures { self.new ≡ reserved_in without_reservation self.old process }
    {
        self.processes.release(process);
    }

    /// An instance of the process lives from now on, and a reservation is spent: the next version. False: there was no
    /// reservation, that number lives already, or the system has no such process; then nothing changes. The number is from
    /// 1 to 1,000, since the table has a bit for each of these and no other. It comes from a draw, whose contract says so.
    pub fn live(&mut self, process: ProcessId, number: u32) -> bool
        requires { (0 < number) × (number ≤ 1000) }
        ensures can { result ≡ can_live_in self.old.processes process number }
        ensures after { self.new ≡ (if result then turned_in (with_one number) self.old process else self.old) }
    {
        let lives = self.processes.live(process, number);
        if lives {
            self.version = self.version.saturating_add(1);
        }
        lives
    }

    /// An instance of the process lives no more: the next version. False: it didn't live, or the system has no such
    /// process; then nothing changes.
    pub fn end(&mut self, process: ProcessId, number: u32) -> bool
        ensures lived { result ≡ lives_in self.old.processes process number }
        ensures after { self.new ≡ (if result then turned_in (without_one number) self.old process else self.old) }
    {
        let lived = self.processes.end(process, number);
        if lived {
            self.version = self.version.saturating_add(1);
        }
        lived
    }

    /// How often somebody came to life or ended, as far as 64 bits count.
    pub fn version(&self) -> u64
        ensures { result ≡ self.now.version }
    {
        self.version
    }

    /// The least number of a living instance of the process.
    pub fn least(&self, process: ProcessId) -> Option<u32>
        ensures { result ≡ living_in (least_living self.now.processes) process }
    {
        self.processes.least(process)
    }

    /// For each process by its number, the least number of its living instances.
    pub fn living(&self) -> &[Option<u32>]
        ensures least { result.now ≡ least_living self.now.processes }
        ensures within { All AreWithinLimit self.now.processes }
        ensures ascending { All AreAscending self.now.processes }
    {
        self.processes.living()
    }
}
