//! The chart that a command line asks for.

use crate::mistake::Mistake;
use crate::views::Form;
use clap::ArgMatches;
use port_model::Ticks;
use std::alloc::{AllocError, Global};
use view_chart::{Selection, Wanted};

/// A chart of a run, and the file into which it goes.
#[derive(Drop)]
pub struct ChartFile {
    pub name: String,
    pub form: Form,
    /// What a picture shows. A text of Z.120 has the whole run.
    pub selection: Selection,
}

/// The chart of a run, if one is asked for.
pub fn chart_file(alloc: Global, run: &ArgMatches<'_>) -> Result<Option<ChartFile>, Mistake> {
    let Some(name) = run.get_str("chart") else {
        return Ok(None);
    };
    let form = Form::of_file(name).ok_or(Mistake::ChartEnding)?;
    let selection = selection(alloc, run)?;
    if !form.is_picture() && selects(&selection) {
        return Err(Mistake::Whole);
    }
    Ok(Some(ChartFile {
        name: String::from_str(alloc, name)?,
        form,
        selection,
    }))
}

/// What is chosen of a run.
fn selection(alloc: Global, run: &ArgMatches<'_>) -> Result<Selection, Mistake> {
    let mut only = Vec::new(alloc);
    for word in run.get_strs("only").unwrap_or(&[]) {
        add(&mut only, wanted(alloc, word)?)?;
    }
    let (from, until) = (time(run, "from"), time(run, "until"));
    if is_empty(from, until) {
        return Err(Mistake::Times);
    }
    Ok(Selection { only, from, until })
}

/// Whether no time is between these two.
fn is_empty(from: Option<Ticks>, until: Option<Ticks>) -> bool {
    match (from, until) {
        (Some(from), Some(until)) => until < from,
        _ => false,
    }
}

/// Whether something is chosen, and not all of it.
fn selects(selection: &Selection) -> bool {
    !selection.only.is_empty() || selection.from.is_some() || selection.until.is_some()
}

/// The instances that a word names: the one of a number, or those of a process.
fn wanted(alloc: Global, word: &str) -> Result<Wanted, Mistake> {
    if let Some(number) = word.strip_prefix("#") {
        return match number.parse() {
            Ok(number) => Ok(Wanted::Instance(number)),
            Err(_) => Err(Mistake::Only),
        };
    }
    if word.is_empty() {
        return Err(Mistake::Only);
    }
    Ok(Wanted::Process(String::from_str(alloc, word)?))
}

fn add(only: &mut Vec<Wanted>, one: Wanted) -> Result<(), AllocError> {
    only.push(one)?;
    Ok(())
}

fn time(run: &ArgMatches<'_>, id: &str) -> Option<Ticks> {
    Some(Ticks::new(run.get_one::<u64>(id)?))
}
