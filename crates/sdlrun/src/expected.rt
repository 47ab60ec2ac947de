//! What is expected of a run, beside what it did.

use crate::failure::Failure;
use crate::paper::Paper;
use sdl_command_line::{
    Difference, Expectation, Part, Sent, Task, by_sender, difference_text, first_difference,
    lines_of, sent_signals,
};
use sdl_engine::{Run, TextFault};
use sdl_report::write_text;
use std::alloc::{AllocError, Global};
use std::fs;
use std::io::Write;

/// The file with what is expected of a run, and what it says, unless it is to be written.
#[derive(Drop)]
pub struct Expected<'t> {
    expectation: &'t Expectation,
    wanted: Vec<u8>,
}

/// What came of the comparison with a run.
#[derive(Clone, Copy)]
pub struct Compared {
    pub differs: bool,
    /// The instance that can't go on, if the order of the run is compared, and isn't known to its end.
    pub stuck: Option<u32>,
}

impl<'t> Expected<'t> {
    /// Reads the file, if a task names one.
    pub fn read(rt: &HostRuntime, task: &'t Task) -> Result<Option<Expected<'t>>, Failure> {
        let Some(expectation) = &task.expectation else {
            return Ok(None);
        };
        let wanted = if expectation.blesses {
            Vec::new(rt.alloc())
        } else {
            read_file(rt, expectation.name.as_str())?
        };
        Ok(Some(Expected {
            expectation,
            wanted,
        }))
    }

    /// Compares a run with what is expected, or writes that: what was written of the run, or what it sent to the
    /// environment.
    pub fn compare(
        &self,
        rt: &HostRuntime,
        task: &Task,
        run: &Run,
        written: &[u8],
    ) -> Result<Compared, Failure> {
        match self.expectation.part {
            Part::Whole => Ok(Compared {
                differs: self.differs(rt, written, Order::OfText)?,
                stuck: None,
            }),
            Part::Outputs => self.compare_sent(rt, run, task.options.workers.is_some()),
        }
    }

    /// The same of what a run sent to the environment. With workers only what one instance sends has an order.
    fn compare_sent(
        &self,
        rt: &HostRuntime,
        run: &Run,
        has_workers: bool,
    ) -> Result<Compared, Failure> {
        let Sent { text, stuck } = sent_signals(rt.alloc(), run, has_workers)?;
        let order = if has_workers {
            Order::BySender
        } else {
            Order::OfText
        };
        Ok(Compared {
            differs: self.differs(rt, text.as_str().as_bytes(), order)?,
            stuck,
        })
    }

    /// Whether a text differs from the wanted one, which is told. If the file is to be written, the text is written,
    /// and doesn't differ.
    fn differs(&self, rt: &HostRuntime, told: &[u8], order: Order) -> Result<bool, Failure> {
        let name = self.expectation.name.as_str();
        if self.expectation.blesses {
            write_file(rt, name, told)?;
            return Ok(false);
        }
        let wanted = lines_in(rt.alloc(), &self.wanted, order)?;
        let told = lines_in(rt.alloc(), told, order)?;
        let Some(found) = first_difference(&wanted, &told) else {
            return Ok(false);
        };
        let heading = heading(rt.alloc(), name, &found, order)?;
        let text = difference_text(rt.alloc(), heading.as_str(), &found)?;
        let _ = write_text(&mut rt.stderr(), &text);
        Ok(true)
    }
}

/// In which order the lines of a text are compared.
#[derive(Clone, Copy)]
enum Order {
    OfText,
    BySender,
}

/// The lines of a text in this order.
fn lines_in<'t>(alloc: Global, text: &'t [u8], order: Order) -> Result<Vec<&'t [u8]>, AllocError> {
    let lines = lines_of(alloc, text)?;
    match order {
        Order::OfText => Ok(lines),
        Order::BySender => by_sender(lines),
    }
}

/// What is said above a difference from the file of this name. If its lines are in their order there, the first that
/// differs has a number.
fn heading(
    alloc: Global,
    name: &str,
    found: &Difference<'_>,
    order: Order,
) -> Result<String, AllocError> {
    match order {
        Order::OfText => {
            let number = found.same.len().saturating_add(1);
            format!(in alloc; "{name}:{number}: the run differs from this file here:")
        }
        Order::BySender => {
            format!(in alloc; "{name}: what an instance sends differs from this file:")
        }
    }
}

/// All that is in a file.
fn read_file(rt: &HostRuntime, name: &str) -> Result<Vec<u8>, Failure> {
    match fs::read(rt, name) {
        Ok(bytes) => Ok(bytes),
        Err(error) => Err(Failure::Unopened(String::from_str(rt.alloc(), name)?, error)),
    }
}

/// Writes a file anew.
fn write_file(rt: &HostRuntime, name: &str, text: &[u8]) -> Result<(), Failure> {
    let mut paper = Paper::create(rt, name)?;
    match paper.write_all(text) {
        Ok(()) => paper.finish(),
        Err(_) => Err(paper.failure(TextFault::Write)),
    }
}
