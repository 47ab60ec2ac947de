//! A timeline, event by event.

ghost use Rattle.std.specs.Prelude.{◌≡◌, ◌<◌, ◌∷◌, [], IfNone, IfOk, IfSome, MatchOption, if◌then◌else◌, length, slice_set};
ghost use Rattle.std.specs.List.{AllByRecursion};
ghost use Rattle.view_timeline.specs.Moves.{IsPart};
ghost use Rattle.view_timeline.specs.Timeline.{AreBegun};
ghost use Rattle.view_text.specs.Step.{step_value};
ghost use Rattle.view_text.specs.Walk.{IsOnTheWay, all_steps, goes_on, left_of};

use port_model::{Ticks, Value};
use run_record::{Entry, Record, Report};
use std::alloc::{AllocError, Global};
use std::marker::Model;
use view_timeline::{Cursor, Link, Move, Timeline, begins};

/// An event of a timeline: the record of which it is, the entry with its values, and its link.
#[derive(Drop)]
pub struct Step<'t> {
    pub record: &'t Record,
    pub entry: Entry,
    pub values: &'t [Value],
    pub link: Link,
    /// When its transition began. A record closes at no time.
    pub at: Option<Ticks>,
    /// Its place in its move, from 0, and whether the move ends with it.
    pub place: u32,
    pub closes: bool,
}

impl Step<'_> {
    /// When its transition began, if it is the first of a part with which that goes on.
    pub fn goes_on(&self) -> Option<u64>
        ensures { result ≡ goes_on (step_value self.now) }
    {
        if self.place != 0 || begins(&self.entry) {
            return None;
        }
        match self.at {
            Some(at) => Some(at.get()),
            None => None,
        }
    }
}

/// Goes through a timeline, event by event. It is in the first of the moves; the cursors say how much of each record it
/// has passed.
#[derive(Drop)]
pub struct Walk<'t> {
    records: &'t [Record],
    cursors: Vec<Cursor<'t>>,
    moves: &'t [Move],
    links: &'t [Link],
}

impl<'t> Model for Walk<'t> {
    ghost use Rattle.std.specs.Prelude.{List};
    ghost use Rattle.view_text.specs.Walk.{IsOnTheWay, StepValue, left_of};

    ghost Value = { List StepValue };

    ghost view = { λ w. left_of w.records.now w.cursors.items w.moves.now w.links.now };

    ghost invariant = { λ w. IsOnTheWay w.records.now w.cursors.items w.moves.now };
}

impl<'t> Walk<'t> {
    /// Before the first event of a timeline of the report.
    pub fn new(alloc: Global, report: &'t Report, told: &'t Timeline) -> Result<Self, AllocError>
        requires parts { AllByRecursion (IsPart report.now.records.items) told.now.moves.items }
        requires begun { AreBegun report.now.records.items told.now }
        ensures { IfOk result (λ walk. walk ≡ all_steps report.now.records.items told.now) }
    {
        let mut cursors = Vec::new(alloc);
        for record in &report.records {
            cursors.push(Cursor::new(record)?)?;
        }
        Ok(Walk {
            records: &report.records,
            cursors,
            moves: &told.moves,
            links: &told.links,
        })
    }

    /// The next event.
    pub fn next(&mut self) -> Option<Step<'t>>
        ensures left { MatchOption result (self.old ≡ []) (λ step. self.old ≡ step_value step ∷ self.new) }
        ensures still { IfNone result (self.new ≡ self.old) }
    {
        match pass(self.records, &self.cursors, self.moves, self.links) {
            None => None,
            Some(passed) => {
                self.cursors[passed.place] = passed.cursor;
                self.moves = passed.moves;
                self.links = passed.links;
                Some(passed.step)
            }
        }
    }
}

/// An event that a walk passes, and what is left after it: the cursor at this place, the moves and the links.
#[derive(Drop)]
struct Passed<'t> {
    step: Step<'t>,
    place: usize,
    cursor: Cursor<'t>,
    moves: &'t [Move],
    links: &'t [Link],
}

/// Passes the next event, if there is one.
fn pass<'t>(
    records: &'t [Record],
    cursors: &[Cursor<'t>],
    moves: &'t [Move],
    links: &'t [Link],
) -> Option<Passed<'t>>
    requires { IsOnTheWay records.now cursors.now moves.now }
    ensures none { IfNone result (left_of records.now cursors.now moves.now links.now ≡ []) }
    ensures within { IfSome result (λ passed. passed.place < length cursors.now) }
    ensures left { IfSome result (λ passed. left_of records.now cursors.now moves.now links.now
        ≡ step_value passed.step ∷ left_of records.now
        (slice_set cursors.now passed.place passed.cursor) passed.moves.now passed.links.now) }
    ensures on { IfSome result (λ passed. IsOnTheWay records.now
        (slice_set cursors.now passed.place passed.cursor) passed.moves.now) }
{
    let (first, later) = moves.split_first()?;
    let place = first.record.0 as usize;
    let begin = first.first.0;
    let end = first.end.0;
    let record = records.get(place)?;
    let cursor = cursors.get(place)?;
    let next = cursor.next()?;
    let (link, rest) = links.split_first()?;
    let closes = next.first + 1 == end;
    Some(Passed {
        step: Step {
            record,
            entry: next.entry,
            values: next.values,
            link: *link,
            at: first.at,
            place: next.first - begin,
            closes,
        },
        place,
        cursor: next.rest,
        moves: moves_after(moves, later, closes),
        links: rest,
    })
}

/// The moves that are left after an event of the first one, by whether that ends with it.
fn moves_after<'t>(moves: &'t [Move], later: &'t [Move], closes: bool) -> &'t [Move]
    ensures { result.now ≡ (if closes then later.now else moves.now) }
{
    if closes { later } else { moves }
}
