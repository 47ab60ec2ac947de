//! A runtime that gives no values to those that are created.

use input_port::{Port, Sender};
use port_model::{Fuse, SignalId, Values};
use sdl_system::{Dest, ProcessId, System, Target};
use std::alloc::AllocError;
use std::sync::Wait;
use threads_instance::Runtime;
use threads_ports::Run;
use threads_shared::StepRuntime;

/// The run, as an instance sees it in a step, except that whom it creates gets no values.
#[derive(Drop)]
pub struct Withholding<'w, 'l, 's, 'p, J: Run, R: Wait + Copy> {
    pub inner: StepRuntime<'w, 'l, 's, 'p, J, R>,
}

impl<'w, 'l, 's, 'p, J: Run, R: Wait + Copy> Runtime<J> for Withholding<'w, 'l, 's, 'p, J, R> {
    ghost use Rattle.std.specs.Prelude.{nat_lt, vec_capacity, vec_len};

    ghost prepared = { λ o. nat_lt (vec_len o.inner.own.now.fuses) (vec_capacity o.inner.own.now.fuses) };

    ghost kept = { λ o. o.inner.own.now.fuses.items };

    fn route(&mut self, system: &System, signal: SignalId, from: ProcessId, to: Dest) -> Target {
        self.inner.route(system, signal, from, to)
    }

    fn port(&self, number: u32) -> Option<&Port> {
        self.inner.port(number)
    }

    fn is_entered(&mut self, number: u32) -> bool {
        self.inner.is_entered(number)
    }

    fn sender(&mut self, number: u32) -> Result<Sender, AllocError> {
        self.inner.sender(number)
    }

    fn prepare(&mut self) -> Result<(), AllocError> {
        self.inner.prepare()
    }

    fn keep(&mut self, fuse: Fuse) {
        self.inner.keep(fuse);
    }

    fn create(
        &mut self,
        process: ProcessId,
        parent: u32,
        _values: Values,
    ) -> Result<Option<u32>, AllocError> {
        let none = Values::none(self.inner.shared.alloc);
        self.inner.create(process, parent, none)
    }
}
