//! A measurement.

use crate::call::Call;
use crate::fault::Fault;
use crate::parts::Parts;
use crate::run::{timed_run, written};
use crate::things::{ANY, Numbers, STATION, THINGS, Thing, What};
use crate::{alone, rows, shared};
use sdl_engine::Command;
use std::alloc::{AllocError, Global};
use std::fmt;
use std::sync::Wait;
use std::thread::Threads;
use std::time::{Clock, Duration, Instant};

/// How many signals are sent in a row at most.
const ROW: u64 = 1_000;

/// A thing with its numbers. If it has one number alone, that is the first.
#[derive(Clone, Copy)]
pub struct Measure {
    pub thing: Thing,
    pub first: u64,
    pub second: u64,
}

/// How it is measured.
#[derive(Clone, Copy)]
pub struct Manner {
    /// Whether the text is printed, and nothing is measured.
    pub is_printed: bool,
    /// Whether the time is printed, that of a run by its parts, too.
    pub is_timed: bool,
    /// Whether the time of a run is that of the run alone.
    pub is_bare: bool,
    /// How many worker threads a run has; none for a serial run.
    pub workers: Option<u8>,
}

/// How much was done, how long that took, in which parts if it is a run, and which call was refused and made again.
#[derive(Clone, Copy)]
pub struct Done {
    pub count: u64,
    pub took: Duration,
    pub parts: Option<Parts>,
    pub again: Option<Call>,
}

impl Measure {
    /// The text that is run or checked.
    pub fn text(self, alloc: Global) -> Result<String, Fault> {
        let text = match self.thing.what {
            What::Run(specification) => self.run_text(alloc, specification, "")?,
            What::Ring(specification) => self.run_text(alloc, specification, STATION)?,
            What::Check(dense) => dense.text(alloc, self.first)?,
            _ => return Err(Fault::Text),
        };
        Ok(text)
    }

    /// A specification with the constants that it names, and behind it a script that ends once all instances rest.
    fn run_text(
        self,
        alloc: Global,
        specification: &str,
        stations: &str,
    ) -> Result<String, AllocError> {
        let (first, second) = (self.first, self.second);
        let most = first.min(ROW);
        format!(in alloc;
            "system S;
synonym n Integer = {first}, h Integer = {second}, twice Integer = 2 * n, most Integer = {most};
{specification}{stations}endsystem;
%script
0
"
        )
    }

    /// Does it, and tells how much was done: signals taken, timers, bytes written, or, of a bare run, events.
    pub fn done<R: Clock + Threads + Wait + Copy + Send + Sync>(
        self,
        rt: &R,
        alloc: Global,
        manner: Manner,
    ) -> Result<Done, Fault> {
        if manner.is_bare || (manner.is_timed && self.is_run()) {
            let text = self.text(alloc)?;
            return timed_run(rt, alloc, text.as_str(), manner.workers, manner.is_bare);
        }
        let mut again = None;
        let start = Instant::now(rt)?;
        let count = self.count(rt, alloc, manner.workers, &mut again)?;
        let took = start.elapsed(rt)?;
        Ok(Done {
            count,
            took,
            parts: None,
            again,
        })
    }

    /// Whether it is a run.
    fn is_run(self) -> bool {
        match self.thing.what {
            What::Run(_) | What::Ring(_) => true,
            _ => false,
        }
    }

    /// Does it, and tells how much was done.
    fn count<R: Threads + Wait + Copy + Send + Sync>(
        self,
        rt: &R,
        alloc: Global,
        workers: Option<u8>,
        again: &mut Option<Call>,
    ) -> Result<u64, Fault> {
        let times = self.first;
        let command = match self.thing.what {
            What::Puts => return shared::puts(rt, alloc, times, again),
            What::Four => return shared::puts_by_four(rt, alloc, times, again),
            What::Finish => return shared::finishes(rt, alloc, times, again),
            What::TwoSenders => return rows::two_senders(rt, alloc, times, again),
            What::StopAndWorkers => return rows::stop_and_workers(rt, alloc, times, again),
            What::SaveInPort => return rows::save_in_port(rt, alloc, times, again),
            What::Saved => return alone::takes_past_saved(alloc, times).ok_or(Fault::Memory),
            What::Urgent => return alone::takes_of_urgent(alloc, times).ok_or(Fault::Memory),
            What::Sets => return alone::sets_beside_waiting(alloc, times).ok_or(Fault::Memory),
            What::Timers => return alone::timers(alloc, times).ok_or(Fault::Memory),
            What::Run(_) | What::Ring(_) => Command::Run,
            What::Check(_) => Command::Check,
        };
        let text = self.text(alloc)?;
        written(rt, alloc, text.as_bytes(), command, workers)
    }
}

impl fmt::Display for Measure {
    fn fmt<W: fmt::Write>(&self, f: &mut fmt::Formatter<W>) -> fmt::Result {
        write!(f, "{} {}", self.thing.name, self.first)?;
        if let Numbers::Two { .. } = self.thing.numbers {
            write!(f, " {}", self.second)?;
        }
        f.write_str(if self.thing.is_down { " --down" } else { "" })
    }
}

/// The thing of this name, with these numbers, if there is one.
pub fn named(
    alloc: Global,
    name: &str,
    is_down: bool,
    first: u64,
    second: u64,
) -> Result<Vec<Measure>, AllocError> {
    let mut found = Vec::new(alloc);
    for thing in &THINGS {
        if thing.name == name && thing.is_down == is_down && first <= most_of(thing) {
            found.push(Measure {
                thing: *thing,
                first,
                second,
            })?;
        }
    }
    Ok(found)
}

/// Each thing, with one number for all of its numbers.
pub fn all(alloc: Global, number: u64) -> Result<Vec<Measure>, AllocError> {
    let mut found = Vec::new(alloc);
    for thing in &THINGS {
        let first = match thing.numbers {
            Numbers::Bytes => number.saturating_mul(10_000),
            _ => number.min(most_of(thing)),
        };
        found.push(Measure {
            thing: *thing,
            first,
            second: number,
        })?;
    }
    Ok(found)
}

/// The greatest first number of a thing.
fn most_of(thing: &Thing) -> u64 {
    match thing.numbers {
        Numbers::Two { most } => most,
        Numbers::One | Numbers::Bytes => ANY,
    }
}
