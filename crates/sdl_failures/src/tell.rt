//! The text that tells the failures of a run.

use crate::fallen::{Fallen, fallen_of};
use crate::replayed::{failure_of, find_failure};
use crate::sentence::failure_text;
use crate::stop::stop_of;
use explain_syntax::{Advice, Excerpt, Explanation, Origin};
use run_record::{Record, Report};
use sdl_system::System;
use sdl_tree::Tree;
use std::alloc::{AllocError, Global};

/// So many failures are told, those that came first.
const MOST_TOLD: usize = 10;

/// A run, with the text of its specification.
#[derive(Clone, Copy)]
pub struct Told<'t> {
    pub text: &'t [u8],
    /// The file of the text, as messages name it.
    pub name: &'t str,
    pub tree: &'t Tree,
    pub system: &'t System,
    pub report: &'t Report,
}

/// Tells the failures of a run, the ten that came first, and how many more there are. Nothing if none came.
pub fn failures_text(alloc: Global, told: &Told<'_>) -> Result<Vec<u8>, AllocError> {
    let fallen = fallen_of(alloc, &told.report.records)?;
    let mut text = Vec::new(alloc);
    for one in fallen.iter().take(MOST_TOLD) {
        push_failure(alloc, &mut text, told, *one)?;
    }
    if fallen.len() > MOST_TOLD {
        push_rest(alloc, &mut text, fallen.len() - MOST_TOLD)?;
    }
    Ok(text)
}

fn push_failure(
    alloc: Global,
    text: &mut Vec<u8>,
    told: &Told<'_>,
    one: Fallen,
) -> Result<(), AllocError> {
    let Some(record) = told.report.records.get(one.index) else {
        return Ok(());
    };
    let explanation = explanation_of(alloc, told, record, one.at)?;
    let origin = Origin {
        name: told.name,
        lines_before: 0,
    };
    let lines = explanation.text(alloc, &origin)?;
    text.extend_from_slice(&lines)
}

/// The place of a failure, if that is found, and what is said of it.
fn explanation_of<'t>(
    alloc: Global,
    told: &Told<'t>,
    record: &'t Record,
    at: u64,
) -> Result<Explanation<'t>, AllocError> {
    let number = record.pid();
    let name = match told.system.process(record.process()) {
        Some(process) => process.name.as_str(),
        None => "",
    };
    let (shown, reason) = reason_of(alloc, told, record)?;
    let reason = reason.as_str();
    let sentence = format!(in alloc; "Instance #{number} {name} failed at time {at}: {reason}.")?;
    Ok(Explanation {
        shown,
        advice: Advice { text: sentence },
        other: None,
    })
}

/// Where an instance failed, if that is found, and why.
fn reason_of<'t>(
    alloc: Global,
    told: &Told<'t>,
    record: &'t Record,
) -> Result<(Option<Excerpt<'t>>, String), AllocError> {
    let records = told.report.records.as_slice();
    if let Some(failing) = find_failure(alloc, told.system, records, record)?
        && let Some(stop) = stop_of(alloc, told.tree, told.system, &failing)?
    {
        return Ok((Excerpt::at(told.text, stop.place), stop.sentence));
    }
    let why = match failure_of(record) {
        Some(why) => failure_text(why),
        None => "",
    };
    Ok((None, String::from_str(alloc, why)?))
}

/// Says how many failures more there are.
fn push_rest(alloc: Global, text: &mut Vec<u8>, count: usize) -> Result<(), AllocError> {
    let noun = if count == 1 { "instance" } else { "instances" };
    let line = format!(in alloc; "sdlrun: {count} more {noun} failed\n")?;
    text.extend_from_slice(line.as_str().as_bytes())
}
