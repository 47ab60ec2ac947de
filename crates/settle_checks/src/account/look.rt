//! A record, and what a look at it finds.

ghost use Rattle.std.specs.Prelude.{◌≡◌, IfOk};
ghost use Rattle.settle_checks.specs.Summary.{IsSummary};

use crate::summing::{Summary, summary_of};
use run_record::{Record, RunError};
use std::alloc::Global;
use std::marker::Model;

/// A record, and what a thread finds that looks at it: its value is that of the record, and what is found is the record's
/// summary.
#[derive(Drop)]
pub struct Look<'a> {
    trace: &'a Record,
    found: Found,
}

/// What a look at a record finds.
#[derive(Drop)]
pub enum Found {
    /// Nobody has looked so far, or there was no memory.
    Nothing,
    /// Times fall in the record, or it has more of something than can be counted.
    Broken,
    /// The summary.
    Sum(Summary),
}

impl<'a> Model for Look<'a> {
    ghost use Rattle.run_record.specs.Record.{RecordValue};
    ghost use Rattle.settle_checks.specs.Looks.{IsFoundIn};

    ghost Value = { RecordValue };

    ghost view = { λ look. look.trace.now };

    ghost invariant = { λ look. IsFoundIn look.trace.now look.found };
}

impl<'a> Look<'a> {
    /// Before the look.
    pub fn new(trace: &'a Record) -> Self
        ensures { result ≡ trace.now }
    {
        Look {
            trace,
            found: Found::Nothing,
        }
    }

    /// Looks at the record.
    pub fn make(&mut self, alloc: Global)
        ensures { self.new ≡ self.old }
    {
        self.found = match summary_of(alloc, self.trace) {
            Ok(Some(sum)) => Found::Sum(sum),
            Ok(None) => Found::Broken,
            Err(_) => Found::Nothing,
        };
    }

    /// The summary that was found. Memory: there was none, or nobody has looked. Lost, with the number of the record:
    /// times fall in it.
    pub fn into_summary(self) -> Result<Summary, RunError>
        ensures { IfOk result (λ sum. IsSummary self.entry sum) }
    {
        match self.found {
            Found::Sum(sum) => Ok(sum),
            Found::Broken => Err(RunError::Lost(self.trace.pid())),
            Found::Nothing => Err(RunError::Memory),
        }
    }
}
