//! The counts of a run.

ghost use Rattle.std.specs.Prelude.{◌≡◌, ◌+◌, Some, IfOk, OnOk};
ghost use Rattle.view_coverage.specs.Coverage.{counted, once, times, times_in};
ghost use Rattle.view_coverage.specs.declared.point.Point.{Point};

use crate::point::Point;
use crate::walk::{point_of, state_after};
use indexmap::IndexMap;
use run_record::{Record, Report};
use std::alloc::{AllocError, Global};
use std::marker::Model;

/// How often each point was passed.
#[derive(Drop)]
pub struct Counts {
    by_point: IndexMap<Point, u64>,
}

impl Model for Counts {
    ghost use Rattle.std.specs.Prelude.{ℕ, List};
    ghost use Rattle.view_coverage.specs.declared.point.Point.{Point};

    ghost Value = { List (Point × ℕ) };

    ghost view = { λ counts. counts.by_point.entries };
}

impl Counts {
    /// Counts how often the records of a report pass each point.
    pub fn of(alloc: Global, report: &Report) -> Result<Self, AllocError>
        ensures { IfOk result (λ counts. (point : Point) →
            counted counts point ≡ times_in report.now.records.items point) }
    {
        let mut counts = Counts {
            by_point: IndexMap::new(alloc),
        };
        for record in &report.records {
            counts.add_record(record)?;
        }
        Ok(counts)
    }

    /// How often this point was passed.
    pub fn times(&self, point: Point) -> u64
        ensures { result ≡ counted self.now point }
    {
        self.by_point.get(&point).copied().unwrap_or(0)
    }

    /// Adds what a record passes.
    fn add_record(&mut self, record: &Record) -> Result<(), AllocError>
        ensures { OnOk result ((point : Point) →
            counted self.new point ≡ counted self.old point + times «record».now point) }
    {
        let process = record.process();
        let mut state = None;
        for told in record.reader() {
            self.add_passed(point_of(process, state, told))?;
            state = state_after(state, told);
        }
        Ok(())
    }

    /// Adds one for the point that was passed, if one was.
    fn add_passed(&mut self, passed: Option<Point>) -> Result<(), AllocError>
        ensures { OnOk result ((point : Point) → counted self.new point ≡ counted self.old point + once passed point) }
    {
        match passed {
            None => Ok(()),
            Some(point) => self.add(point),
        }
    }

    /// Adds one for this point.
    fn add(&mut self, passed: Point) -> Result<(), AllocError>
        ensures { OnOk result ((point : Point) →
            counted self.new point ≡ counted self.old point + once (Some passed) point) }
    {
        let times = next(self.times(passed))?;
        self.by_point.insert(passed, times)?;
        Ok(())
    }
}

/// One more. A record of so many events that a count passes its type takes more memory than there is.
fn next(times: u64) -> Result<u64, AllocError>
    ensures { IfOk result (λ next. next ≡ times + 1) }
{
    times.checked_add(1).ok_or(AllocError)
}
