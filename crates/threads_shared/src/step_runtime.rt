//! What an instance's step asks of the run.

use crate::making;
use crate::making::Made;
use crate::own::Own;
use crate::shared::Shared;
use input_port::{Port, Sender};
use port_model::{Fuse, Pid, SignalId, Values};
use sdl_system::{Dest, ProcessId, Source, System, Target};
use std::alloc::AllocError;
use std::sync::Wait;
use threads_instance::Runtime;
use threads_ports::Run;

/// The run, as an instance sees it in a step that this thread makes.
#[derive(Drop)]
pub struct StepRuntime<'w, 'l, 's, 'p, J: Run, R: Wait + Copy> {
    pub shared: &'w Shared<'l, 's, 'p, J, R>,
    pub own: &'w mut Own<J>,
}

impl<'w, 'l, 's, 'p, J: Run, R: Wait + Copy> Runtime<J> for StepRuntime<'w, 'l, 's, 'p, J, R> {
    ghost use Rattle.std.specs.Prelude.{nat_lt, vec_capacity, vec_len};

    ghost prepared = { λ o. nat_lt (vec_len o.own.now.fuses) (vec_capacity o.own.now.fuses) };

    ghost kept = { λ o. o.own.now.fuses.items };

    /// Whom a signal reaches is noted, since it is asked for just before each signal is sent. So is the version of the
    /// roster by which it was looked up.
    fn route(&mut self, system: &System, signal: SignalId, from: ProcessId, to: Dest) -> Target {
        self.own.look(self.shared.rt, self.shared.tables);
        let target = system.route(
            signal,
            Source::Process(from),
            to,
            self.own.living.as_slice(),
        );
        self.own.note_look_up(to);
        if let Target::Instance(number) = target {
            self.own.addressees = self.own.addressees.and(number);
        }
        target
    }

    fn port(&self, number: u32) -> Option<&Port> {
        self.shared.common.ports.port(number)
    }

    fn is_entered(&mut self, number: u32) -> bool {
        self.shared.common.entries.find(number).is_some()
    }

    fn sender(&mut self, number: u32) -> Result<Sender, AllocError> {
        match self.shared.common.ports.sender(self.shared.rt, number) {
            Ok(sender) => Ok(sender),
            Err(_) => Err(AllocError),
        }
    }

    fn prepare(&mut self) -> Result<(), AllocError> {
        self.own.fuses.reserve(1)
    }

    fn keep(&mut self, fuse: Fuse) {
        self.own.fuses.push_reserved(fuse);
    }

    /// A new instance has its start to make, so its ticket is in this thread's hand. Room for it there is made before
    /// there is a number.
    fn create(
        &mut self,
        process: ProcessId,
        parent: u32,
        values: Values,
    ) -> Result<Option<u32>, AllocError> {
        self.own.hand.reserve(1)?;
        let seat = &mut self.own.seat;
        let made = making::make(self.shared, seat, process, Pid::Of(parent), values)?;
        let Made { ticket, version } = made;
        self.own.note_version(version);
        let Some(ticket) = ticket else {
            return Ok(None);
        };
        let number = ticket.number();
        self.own.hand.push_back_reserved(ticket);
        Ok(Some(number))
    }
}
