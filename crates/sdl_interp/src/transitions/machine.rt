//! What the transitions of an instance work on.

ghost use Rattle.std.specs.Prelude.{◌≡◌, ◌≤◌, IfErr, OnOk};
ghost use Rattle.run_record.specs.Record.{with_room};
ghost use Rattle.sdl_interp.specs.Machine.{identity_of};

use run_record::{Failure, Identity, Record, Store};
use sdl_system::StateId;

/// Where an instance is between two steps.
#[derive(Clone, Copy, PartialEq, Eq)]
pub enum Position {
    BeforeStart,
    In(StateId),
    Ended,
}

/// The machine of an instance: what it knows, and what it did so far. Until it ends, one place of its record is free,
/// so that a failure can be recorded.
#[derive(Drop)]
pub struct Machine {
    pub store: Store,
    pub trace: Record,
}

impl Machine {
    /// Who the instance is.
    pub fn who(&self) -> Identity
        ensures { result ≡ identity_of self.now.trace }
    {
        Identity {
            process: self.trace.process(),
            pid: self.trace.pid(),
            parent: self.trace.parent(),
        }
    }
}

/// Makes room for an event with so many values, beside the free place. Refused for lack of memory alone.
pub fn make_room(machine: &mut Machine, values: usize) -> Result<(), Failure>
    ensures same { let now = machine.new.trace in
        machine.new ≡ record machine.old { trace = with_room machine.old.trace now.room now.values_room } }
    ensures kept { machine.old.trace.room ≤ machine.new.trace.room }
    ensures room { OnOk result (2 ≤ machine.new.trace.room) }
    ensures values_room { OnOk result (values ≤ machine.new.trace.values_room) }
    ensures err { IfErr result (λ why. why ≡ Failure.Memory) }
{
    match machine.trace.reserve(2, values) {
        Ok(()) => Ok(()),
        Err(_) => Err(Failure::Memory),
    }
}
