//! How much of what the environment sends is taken.

ghost use Rattle.std.specs.Prelude.{◌≡◌, ◌+◌, ◌-◌, IfOk, OnOk, if◌then◌else◌, nat_lt};
ghost use Rattle.std.specs.List.{AllByRecursion};
ghost use Rattle.view_text.specs.Lost.{same_arrival, takes};
ghost use Rattle.view_text.specs.Takes.{counted};
ghost use Rattle.view_text.specs.Walk.{all_steps};
ghost use Rattle.view_text.specs.declared.arrival.Arrival.{Arrival};
ghost use Rattle.view_timeline.specs.Moves.{IsPart};
ghost use Rattle.view_timeline.specs.Timeline.{AreBegun};

use crate::arrival::Arrival;
use crate::heard::heard_by;
use crate::walk::Walk;
use indexmap::IndexMap;
use run_record::Report;
use std::alloc::{AllocError, Global};
use view_timeline::Timeline;

/// How many takes are left of what comes to an instance under a name.
#[derive(Drop)]
pub struct Takes {
    pub counts: IndexMap<Arrival, u64>,
}

impl Takes {
    /// Those of a timeline.
    pub fn new(alloc: Global, report: &Report, told: &Timeline) -> Result<Self, AllocError>
        requires parts { AllByRecursion (IsPart report.now.records.items) told.now.moves.items }
        requires begun { AreBegun report.now.records.items told.now }
        ensures { IfOk result (λ made. (arrival : Arrival) → counted made.counts arrival
            ≡ takes (all_steps report.now.records.items told.now) arrival) }
    {
        let mut made = Takes {
            counts: IndexMap::new(alloc),
        };
        let mut walk = Walk::new(alloc, report, told)?;
        while let Some(step) = walk.next() {
            if let Some(signal) = heard_by(&step.entry) {
                made.add(Arrival {
                    number: step.record.pid(),
                    signal,
                })?;
            }
        }
        Ok(made)
    }

    /// One more.
    fn add(&mut self, arrival: Arrival) -> Result<(), AllocError>
        ensures { OnOk result ((other : Arrival) → counted self.new.counts other
            ≡ counted self.old.counts other + (if same_arrival arrival other then 1 else 0)) }
    {
        let count = self.count(arrival).checked_add(1).ok_or(AllocError)?;
        self.counts.insert(arrival, count)?;
        Ok(())
    }

    /// One less, if one is left. Says whether one was.
    pub fn take(&mut self, arrival: Arrival) -> Result<bool, AllocError>
        ensures was { IfOk result (λ was. was ≡ nat_lt 0 (counted self.old.counts arrival)) }
        ensures now { OnOk result ((other : Arrival) → counted self.new.counts other
            ≡ counted self.old.counts other - (if same_arrival arrival other then 1 else 0)) }
    {
        let count = self.count(arrival);
        if count == 0 {
            return Ok(false);
        }
        self.counts.insert(arrival, count - 1)?;
        Ok(true)
    }

    /// How many are left.
    fn count(&self, arrival: Arrival) -> u64
        ensures { result ≡ counted self.now.counts arrival }
    {
        match self.counts.get(&arrival) {
            Some(count) => *count,
            None => 0,
        }
    }
}
