//! The events of a timeline, and the signals of the script that are lost, in one order.

ghost use Rattle.std.specs.Prelude.{◌≡◌, ◌∷◌, [], IfOk, MatchOption, drop, map};
ghost use Rattle.std.specs.List.{AllByRecursion};
ghost use Rattle.view_timeline.specs.Moves.{IsPart};
ghost use Rattle.view_timeline.specs.Timeline.{AreBegun};
ghost use Rattle.view_text.specs.Occurrences.{gap, occurrences};
ghost use Rattle.view_text.specs.Occurrence.{occurrence_value};
ghost use Rattle.view_text.specs.Sending.{sending_value};

use crate::sending::Sending;
use crate::walk::{Step, Walk};
use run_record::Report;
use std::alloc::{AllocError, Global};
use std::marker::Model;
use view_timeline::Timeline;

/// What a text of a timeline tells next: an event, or a signal of the script that nobody took.
#[derive(Drop)]
pub enum Occurrence<'t> {
    Done(Step<'t>),
    Lost(&'t Sending<'t>),
}

/// Goes through a timeline, event by event, and through the lost signals: `passed` of them are passed, and the next one
/// comes after so many events.
#[derive(Drop)]
pub struct Occurrences<'t> {
    walk: Walk<'t>,
    lost: &'t [Sending<'t>],
    passed: usize,
    wait: usize,
}

impl<'t> Model for Occurrences<'t> {
    ghost use Rattle.std.specs.Prelude.{List, drop, map};
    ghost use Rattle.view_text.specs.Occurrences.{Occurrence, woven};
    ghost use Rattle.view_text.specs.Sending.{sending_value};

    ghost Value = { List Occurrence };

    ghost view = { λ o. woven o.wait (map sending_value (drop o.passed o.lost.now)) o.walk };
}

impl<'t> Occurrences<'t> {
    /// Before the first of them.
    pub fn new(
        alloc: Global,
        report: &'t Report,
        told: &'t Timeline,
        lost: &'t [Sending<'t>],
    ) -> Result<Self, AllocError>
        requires parts { AllByRecursion (IsPart report.now.records.items) told.now.moves.items }
        requires begun { AreBegun report.now.records.items told.now }
        ensures { IfOk result (λ all. all
            ≡ occurrences report.now.records.items told.now (map sending_value lost.now)) }
    {
        let walk = Walk::new(alloc, report, told)?;
        Ok(Occurrences {
            walk,
            lost,
            passed: 0,
            wait: gap(0, lost, 0),
        })
    }

    /// The next one.
    pub fn next(&mut self) -> Option<Occurrence<'t>>
        ensures { MatchOption result (self.old ≡ []) (λ next. self.old ≡ occurrence_value next ∷ self.new) }
    {
        let Some(next) = self.lost.get(self.passed) else {
            return match self.walk.next() {
                Some(step) => Some(Occurrence::Done(step)),
                None => None,
            };
        };
        if 0 < self.wait
            && let Some(step) = self.walk.next()
        {
            self.wait -= 1;
            return Some(Occurrence::Done(step));
        }
        self.passed += 1;
        self.wait = gap(next.place, self.lost, self.passed);
        Some(Occurrence::Lost(next))
    }
}

/// How many events are told from a place up to the lost signal that comes next, if there is one.
fn gap(from: usize, lost: &[Sending<'_>], passed: usize) -> usize
    ensures { result ≡ gap from (map sending_value (drop passed lost.now)) }
{
    match lost.get(passed) {
        Some(next) => next.place.saturating_sub(from),
        None => 0,
    }
}
