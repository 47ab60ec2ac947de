//! Whether no signal of a timer is taken before its time.

ghost use Rattle.std.specs.Prelude.{◌≡◌, ◌++◌, ◌∷◌, [], None, Some, IfOk, IsTrue, List, OnOk};
ghost use Rattle.run_record.specs.Entry.{event_of, got_of};
ghost use Rattle.run_record.specs.Event.{Event};
ghost use Rattle.settle_meaning.specs.Timers.{AreDue};
ghost use Rattle.settle_checks.specs.Dues.{AreTimesAfter, IsDueNext, IsGotNext, IsWith, time_of};

use port_model::{SignalId, TimerKey, Value, Values};
use run_record::{Entry, Origin, Record, Stimulus};
use std::alloc::{AllocError, Global};
use std::collections::BTreeMap;
use std::marker::Model;

/// Whether no signal of a timer is taken in the record before the time for which the timer was set last.
pub fn are_due(alloc: Global, trace: &Record) -> Result<bool, AllocError>
    ensures { IfOk result (λ due. IsTrue due → AreDue trace.now.events) }
{
    let mut dues = Dues::new(alloc);
    for told in trace.reader() {
        let is_due = dues.note(told.entry, told.values)?;
        if !is_due {
            return Ok(false);
        }
    }
    Ok(true)
}

/// The times for which timers are set.
#[derive(Drop)]
struct Dues {
    alloc: Global,
    times: BTreeMap<TimerKey, u64>,
}

impl Model for Dues {
    ghost use Rattle.std.specs.Prelude.{List, ℕ};
    ghost use Rattle.port_model.specs.declared.values.timer_key.TimerKey.{TimerKey};

    ghost Value = { List (TimerKey × ℕ) };

    ghost view = { λ d. d.times.entries };
}

impl Dues {
    /// No timer is set. Takes no memory.
    fn new(alloc: Global) -> Self
        ensures { AreTimesAfter [] result }
    {
        Dues {
            alloc,
            times: BTreeMap::new(alloc),
        }
    }

    /// Notes an event with these values. False: it takes the signal of a timer before its time.
    fn note(&mut self, entry: Entry, values: &[Value]) -> Result<bool, AllocError>
        ensures { IfOk result (λ due. IsTrue due → (done : List Event) → AreTimesAfter done self.old
            → IsDueNext done (event_of entry values.now) (done ++ event_of entry values.now ∷ []) self.new) }
    {
        match entry {
            Entry::Set { timer, due } => {
                let key = self.key_of(timer, values)?;
                self.set(key, due)?;
                Ok(true)
            }
            Entry::Reset { timer } => {
                let key = self.key_of(timer, values)?;
                self.take(&key);
                Ok(true)
            }
            Entry::Consumed { at, got } => self.got(at, got, values),
            Entry::Prior { at, got } => self.got(at, got, values),
            Entry::Discarded { at, got } => self.got(at, got, values),
            _ => Ok(true),
        }
    }

    /// Notes a take at this time. False: the signal of a timer is taken before its time.
    fn got(&mut self, at: u64, got: Stimulus, values: &[Value]) -> Result<bool, AllocError>
        ensures { IfOk result (λ due. IsTrue due → (done : List Event) → AreTimesAfter done self.old
            → IsGotNext done at (got_of got values.now) self.new) }
    {
        let Origin::Timer = got.origin else {
            return Ok(true);
        };
        let key = self.key_of(got.name, values)?;
        match self.take(&key) {
            None => Ok(false),
            Some(due) => Ok(due <= at),
        }
    }

    /// Notes a set of this timer.
    fn set(&mut self, key: TimerKey, due: u64) -> Result<(), AllocError>
        ensures { OnOk result (IsWith key (Some due) self.old self.new) }
    {
        if self.times.insert(key, due).is_err() {
            return Err(AllocError);
        }
        Ok(())
    }

    /// The time for which this timer was set. It isn't set any more.
    fn take(&mut self, key: &TimerKey) -> Option<u64>
        ensures due { result ≡ time_of self.old key.now }
        ensures after { IsWith key.now None self.old self.new }
    {
        self.times.remove(key)
    }

    /// The key of a timer with these values.
    fn key_of(&self, name: SignalId, values: &[Value]) -> Result<TimerKey, AllocError>
        ensures { IfOk result (λ key. key ≡ record { name = name; values = values.now }) }
    {
        Ok(TimerKey {
            name,
            values: Values::from_slice(self.alloc, values)?,
        })
    }
}
