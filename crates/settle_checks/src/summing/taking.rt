//! What a record takes.

ghost use Rattle.std.specs.Prelude.{◌++◌, ◌∷◌, [], List, IfOk, IsTrue};
ghost use Rattle.port_model.specs.declared.values.value.Value.{Value};
ghost use Rattle.run_record.specs.Entry.{event_of};
ghost use Rattle.run_record.specs.Event as event;
ghost use Rattle.run_record.specs.Event.{Event};
ghost use Rattle.run_record.specs.Entry.{got_of};
ghost use Rattle.settle_checks.specs.Summary.{IsTaking, TakesAs};

use crate::summing::flows::{Flows, Pass};
use port_model::Pid;
use run_record::{Entry, Origin, Stimulus};
use std::alloc::{AllocError, Global};

/// What a record takes: whether the signal of a timer, and how often a signal of whom.
#[derive(Drop)]
pub struct Taking {
    pub timer: bool,
    pub flows: Flows,
}

/// What an event takes.
#[derive(Clone, Copy)]
pub enum Took {
    Nothing,
    /// The signal of a timer.
    Timer,
    /// A signal that somebody sent.
    Signal(Pass),
}

impl Taking {
    /// Before the first event. Takes no memory.
    #[tactic(auto, using(crate::proofs::TakingLemmas::taking_none))]
    pub fn new(alloc: Global) -> Self
        ensures { IsTaking [] result }
    {
        Taking {
            timer: false,
            flows: Flows::new(alloc),
        }
    }

    /// Notes an event. False: more than can be counted.
    #[tactic(auto, using(crate::proofs::TakingLemmas::taking_nothing, crate::proofs::TakingLemmas::taking_timer, crate::proofs::TakingLemmas::taking_signal))]
    pub fn note(&mut self, entry: Entry) -> Result<bool, AllocError>
        ensures { IfOk result (λ noted. IsTrue noted → (done : List Event) (values : List Value)
            → IsTaking done self.old → IsTaking (done ++ event_of entry values ∷ []) self.new) }
    {
        match taken_by(entry) {
            Took::Nothing => Ok(true),
            Took::Timer => {
                self.timer = true;
                Ok(true)
            }
            Took::Signal(pass) => self.flows.add(pass),
        }
    }
}

/// What an event takes.
fn taken_by(entry: Entry) -> Took
    ensures { (values : List Value) → TakesAs (event_of entry values) result }
{
    match entry {
        Entry::Consumed { at, got } => taken_at(at, got),
        Entry::Prior { at, got } => taken_at(at, got),
        Entry::Discarded { at, got } => taken_at(at, got),
        _ => Took::Nothing,
    }
}

/// What is taken by a take at this time.
fn taken_at(at: u64, got: Stimulus) -> Took
    ensures { (values : List Value) → TakesAs (event.Consumed at (got_of got values)) result }
{
    let peer = match got.origin {
        Origin::Timer => return Took::Timer,
        Origin::Null => Pid::Null,
        Origin::Env => Pid::Env,
        Origin::Instance(number) => Pid::Of(number),
    };
    Took::Signal(Pass {
        peer,
        name: got.name,
        at,
    })
}
