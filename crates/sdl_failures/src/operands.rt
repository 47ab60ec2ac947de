//! What an expression is evaluated by.

ghost use Rattle.std.specs.Prelude.{◌≡◌};

use crate::replayed::Known;
use port_model::{Alone, SignalId, Ticks, Value};
use run_record::{Failure, Identity, Knowledge, evaluate, sorts_of};
use sdl_system::{Expression, Process, Sort, System};
use std::alloc::Global;

/// What an instance knew where it failed.
#[derive(Clone, Copy)]
pub struct Scene<'s> {
    pub alloc: Global,
    pub system: &'s System,
    pub process: &'s Process,
    pub who: Identity,
    pub known: &'s Known,
}

impl Scene<'_> {
    /// The value of an expression there.
    pub fn value(&self, expression: &Expression) -> Result<Value, Failure> {
        evaluate(self.alloc, expression, &self.knowledge())
    }

    fn knowledge(&self) -> Knowledge<'_, Alone> {
        self.known.knowledge(self.system, self.who)
    }

    /// The sorts of the values of a signal or a timer.
    pub fn sorts_of(&self, signal: SignalId) -> &[Sort] {
        sorts_of(self.system, signal)
    }

    /// The time of the transition.
    pub fn now(&self) -> Ticks
        ensures { result ≡ self.now.known.now.store.time }
    {
        self.known.store().time
    }
}
