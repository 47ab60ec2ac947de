//! What of a record isn't told yet.

ghost use Rattle.std.specs.Prelude.{◌≡◌, ◌+◌, ◌∷◌, [], IfOk, IfSome, MatchOption};
ghost use Rattle.run_record.specs.Entry.{event_of};

use port_model::Value;
use run_record::{Entry, Reader, Record};
use std::alloc::AllocError;
use std::marker::Model;

/// How far a record is told.
#[derive(Drop)]
pub struct Cursor<'r> {
    number: u32,
    passed: u32,
    events: Reader<'r>,
}

impl<'r> Model for Cursor<'r> {
    ghost use Rattle.std.specs.Prelude.{◌+◌, ◌^◌, ◌<◌, length};
    ghost use Rattle.view_timeline.specs.Cursor.{CursorValue};

    ghost Value = { CursorValue };

    ghost view = { λ c. record {
      number = c.number;
      told = c.passed;
      left = c.events;
    } };

    ghost invariant = { λ c. c.passed + length c.events < 2 ^ 32 };
}

/// The next event of a record, of the instance of this number: an entry with its place and its values, and what is left
/// after it.
#[derive(Drop)]
pub struct Next<'r> {
    pub number: u32,
    pub first: u32,
    pub entry: Entry,
    pub values: &'r [Value],
    pub rest: Cursor<'r>,
}

impl<'r> Cursor<'r> {
    /// The record of which nothing is told. Refused where it has 2^32 events or more.
    pub fn new(of: &'r Record) -> Result<Self, AllocError>
        ensures { IfOk result (λ c. c ≡ record {
          number = of.now.pid;
          told = 0;
          left = of.now.events;
        }) }
    {
        if u32::try_from(of.len()).is_err() {
            return Err(AllocError);
        }
        Ok(Cursor {
            number: of.pid(),
            passed: 0,
            events: of.reader(),
        })
    }

    /// The number of the instance.
    pub fn number(&self) -> u32
        ensures { result ≡ self.now.number }
    {
        self.number
    }

    /// How many events are told.
    pub fn told(&self) -> u32
        ensures { result ≡ self.now.told }
    {
        self.passed
    }

    /// The next event, if there is one.
    pub fn next(&self) -> Option<Next<'r>>
        ensures left { MatchOption result (self.now.left ≡ [])
            (λ next. self.now.left ≡ event_of next.entry next.values.now ∷ next.rest.left) }
        ensures first { IfSome result (λ next. next.first ≡ self.now.told) }
        ensures number { IfSome result (λ next. next.number ≡ self.now.number) }
        ensures rest_told { IfSome result (λ next. next.rest.told ≡ self.now.told + 1) }
        ensures rest_number { IfSome result (λ next. next.rest.number ≡ self.now.number) }
    {
        let mut events = self.events.again();
        let told = events.next()?;
        Some(Next {
            number: self.number,
            first: self.passed,
            entry: told.entry,
            values: told.values,
            rest: Cursor {
                number: self.number,
                passed: self.passed + 1,
                events,
            },
        })
    }
}
