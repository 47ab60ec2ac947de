//! What lies outside of the one instance that a test runs.

ghost use Rattle.std.specs.Prelude.{None, Some, true};

use port_model::{Fuse, Item, SignalId, Ticks, Values};
use run_semantics::World;
use sdl_system::{Dest, ProcessId, Source, System, Target};
use std::alloc::{AllocError, Global};
use std::process::Abort;

/// The number of the instance that is run.
pub const OWN: u32 = 1;

/// A clock, the timers that were set, the signals that the instance sent to itself, and what it did, as lines. `room`
/// is how many signals may yet be sent.
#[derive(Drop)]
pub struct Runtime<'s> {
    system: &'s System,
    pub clock: Ticks,
    pub fuses: Vec<Fuse>,
    pub own: Vec<Item>,
    pub done: String,
    living: Vec<Option<u32>>,
    given: u32,
    room: usize,
}

impl<'s> Runtime<'s> {
    /// The world before the start, in which the instance that is run lives alone.
    pub fn new(rt: &impl Abort, alloc: Global, system: &'s System, room: usize) -> Self {
        Runtime {
            system,
            clock: Ticks::new(0),
            fuses: Vec::new(alloc),
            own: Vec::new(alloc),
            done: String::new(alloc),
            living: living(rt, alloc, system.processes().len()),
            given: OWN,
            room,
        }
    }

    /// When the next timer is due.
    pub fn next_due(&self) -> Option<Ticks> {
        self.fuses.iter().map(|fuse| fuse.due()).min()
    }

    /// The timer that is due by now and first of all; of those of one time the one that was set first.
    pub fn take_due(&mut self) -> Option<Fuse> {
        let due = self.next_due()?;
        let place = self.fuses.iter().position(|fuse| fuse.due() == due)?;
        if due > self.clock || place >= self.fuses.len() {
            return None;
        }
        Some(self.fuses.remove(place))
    }

    /// The number of one instance more, where one may be made.
    fn next_number(&self, process: ProcessId) -> Option<u32> {
        let most = self.system.process(process)?.maximum;
        match most {
            Some(most) if self.given > most => None,
            _ => self.given.checked_add(1),
        }
    }
}

/// The least living instances of so many processes before the start.
fn living(rt: &impl Abort, alloc: Global, processes: usize) -> Vec<Option<u32>> {
    let mut living = vec![in alloc; None; processes].expect(rt, "a list");
    if let Some(own) = living.first_mut() {
        *own = Some(OWN);
    }
    living
}

fn name_of(system: &System, signal: SignalId) -> &str {
    match system.signal(signal) {
        Some(signal) => &signal.name,
        None => "",
    }
}

impl World for Runtime<'_> {
    ghost value = { λ w. record {
      system = w.system.now;
      clock = Some w.clock;
      living = None;
      effects = None;
      sent = None;
    } };

    ghost prepared = { λ w. true };

    fn now(&mut self) -> Ticks {
        self.clock
    }

    fn route(&mut self, system: &System, signal: SignalId, from: ProcessId, to: Dest) -> Target {
        system.route(signal, Source::Process(from), to, &self.living)
    }

    fn send(&mut self, target: Target, item: Item) -> Result<(), AllocError> {
        if self.room == 0 {
            return Err(AllocError);
        }
        let name = name_of(self.system, item.name);
        let (values, sender) = (&item.values, item.sender);
        writeln!(self.done, "{name}{values} from {sender} to {target:?}")?;
        if target == Target::Instance(OWN) {
            self.own.push(item)?;
        }
        self.room -= 1;
        Ok(())
    }

    fn prepare(&mut self) -> Result<(), AllocError> {
        self.fuses.reserve(1)
    }

    fn arm(&mut self, fuse: Fuse) {
        // A fuse for which there is no room is lost, and its test fails.
        let _ = self.fuses.push(fuse);
    }

    fn create(
        &mut self,
        process: ProcessId,
        parent: u32,
        values: Values,
    ) -> Result<Option<u32>, AllocError> {
        let Some(number) = self.next_number(process) else {
            return Ok(None);
        };
        let process_number = process.0;
        writeln!(
            self.done,
            "#{number}{values} of {process_number} by #{parent}"
        )?;
        if let Some(least @ None) = self.living.get_mut(process.0 as usize) {
            *least = Some(number);
        }
        self.given = number;
        Ok(Some(number))
    }
}
