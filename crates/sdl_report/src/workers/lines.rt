//! The lines of records, one after the other.

ghost use Rattle.std.specs.Prelude.{◌≡◌, ◌↔◌, [], ◌∷◌, drop, take, IsTrue};
ghost use Rattle.sdl_report.specs.Lines.{all_lines};

use crate::workers::line::Line;
use crate::workers::stretch::Stretch;
use run_record::{Reader, Record};
use std::marker::Model;

/// The lines of a report that are left, in its order.
#[derive(Drop)]
pub struct Lines<'a> {
    record: &'a Record,
    // whether the heading of this record is left
    heading_left: bool,
    // what is left of its events
    events: Reader<'a>,
    // the records after it
    rest: &'a [Record],
}

impl<'a> Model for Lines<'a> {
    ghost use Rattle.std.specs.Prelude.{List};
    ghost use Rattle.sdl_report.specs.Lines.{LineValue, lines_left};

    ghost Value = { List LineValue };

    ghost view = { λ l. lines_left l.heading_left l.«record».now l.events l.rest.now };
}

impl<'a> Lines<'a> {
    /// All lines of a record and of those after it.
    pub fn of(first: &'a Record, rest: &'a [Record]) -> Lines<'a>
        ensures { result ≡ all_lines (first.now ∷ rest.now) }
    {
        Lines {
            record: first,
            heading_left: true,
            events: first.reader(),
            rest,
        }
    }

    /// The same lines once more.
    pub fn again(&self) -> Lines<'a>
        ensures { result ≡ self.now }
    {
        Lines {
            record: self.record,
            heading_left: self.heading_left,
            events: self.events.again(),
            rest: self.rest,
        }
    }

    /// Whether no line is left.
    pub fn is_done(&self) -> bool
        ensures { IsTrue result ↔ (self.now ≡ []) }
    {
        let mut ahead = self.again();
        ahead.next().is_none()
    }

    /// Takes the first lines away: so many, or all if there are fewer.
    pub fn take_first(&mut self, count: usize) -> Stretch<'a>
        ensures first { result ≡ take count self.old }
        ensures rest { self.new ≡ drop count self.old }
    {
        let first = Stretch::new(self.again(), count);
        for _place in 0..count {
            let Some(_line) = self.next() else {
                return first;
            };
        }
        first
    }
}

impl<'a> Iterator for Lines<'a> {
    ghost use Rattle.std.specs.Iterator.{YieldsFirstBy, item_count};
    ghost use Rattle.sdl_report.specs.Lines.{line_told};

    type Item = Line<'a>;

    ghost next_gives = { YieldsFirstBy line_told (λ left. left) };

    ghost remaining = { item_count (λ left. left) };

    #[inline(always)]
    fn next(&mut self) -> Option<Line<'a>> {
        if self.heading_left {
            self.heading_left = false;
            return Some(Line::Heading(self.record));
        }
        if let Some(told) = self.events.next() {
            return Some(Line::Event(self.record, told));
        }
        let (record, rest) = self.rest.split_first()?;
        self.record = record;
        self.events = record.reader();
        self.rest = rest;
        Some(Line::Heading(record))
    }
}
