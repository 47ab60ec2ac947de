//! The looks of an owner at its port that found no more in it.

ghost use Rattle.std.specs.Prelude.{◌≡◌, ◌++◌, IfOk, None, OnOk, option_copied};
ghost use Rattle.port_model.specs.Value.{ValueList};
ghost use Rattle.run_record.specs.Entry.{event_of};
ghost use Rattle.run_tracks.specs.Looks.{found_by, found_in, found_where_failed, found_where_taken, look_by, looks_in, state_after, table_in};

use run_record::{Entry, Record};
use sdl_system::{Process, StateId, StateTable};
use std::alloc::{AllocError, Global};

/// A look of an owner at its port: how many steps it made before, and how many entries were drawn by then. No more are
/// to be put before it.
#[derive(Clone, Copy)]
pub struct Look {
    pub step: u32,
    pub drawn: u32,
}

/// What a step found behind what its owner had drawn.
#[derive(Clone, Copy)]
pub enum MoreFound {
    /// That makes no difference to it.
    Anything,
    Nothing,
}

/// The looks of a record that found nothing, or no signal of a priority input where one would go first, in their order.
/// So many entries were drawn after each of its steps. If a condition fails where a state has both kinds of conditions,
/// `looked` says whether the port was looked at before.
pub fn looks_of(
    alloc: Global,
    process: &Process,
    trace: &Record,
    looked: bool,
    drawn: &[u32],
) -> Result<Vec<Look>, AllocError>
    ensures { IfOk result (λ looks. looks.items
        ≡ looks_in 0 (found_in process.now looked None trace.now.events) drawn.now) }
{
    let mut looks = Vec::new(alloc);
    let mut state = None;
    let mut counts = drawn;
    let mut step = 0u32;
    for told in trace.reader() {
        let found = found_by(told.entry, looked, table_in(process, state));
        state = state_after(told.entry, state);
        let Some(found) = found else {
            continue;
        };
        let Some((count, later)) = counts.split_first() else {
            continue;
        };
        add_look(&mut looks, found, step, *count)?;
        counts = later;
        step = step.saturating_add(1);
    }
    Ok(looks)
}

/// A step, before which so many were made, had found this, and had drawn so many entries.
fn add_look(
    looks: &mut Vec<Look>,
    found: MoreFound,
    step: u32,
    drawn: u32,
) -> Result<(), AllocError>
    ensures { OnOk result (looks.new.items ≡ looks.old.items ++ look_by found step drawn) }
{
    match found {
        MoreFound::Anything => {}
        MoreFound::Nothing => looks.push(Look { step, drawn })?,
    }
    Ok(())
}

/// The table of a state.
fn table_in(process: &Process, state: Option<StateId>) -> Option<&StateTable>
    ensures { option_copied result ≡ table_in process.now state }
{
    process.table(state?)
}

/// The state after an event.
fn state_after(entry: Entry, state: Option<StateId>) -> Option<StateId>
    ensures { (values : ValueList) → state_after (event_of entry values) state ≡ result }
{
    match entry {
        Entry::NextState { state: next } => Some(next),
        _ => state,
    }
}

/// What the step that an entry begins, in a state with this table, found behind what its owner had drawn. None: it
/// begins no step.
fn found_by(entry: Entry, looked: bool, table: Option<&StateTable>) -> Option<MoreFound>
    ensures { (values : ValueList) → found_by (event_of entry values) looked (option_copied table.entry) ≡ result }
{
    match entry {
        Entry::Start { .. } | Entry::Prior { .. } => Some(MoreFound::Anything),
        Entry::Provided { .. } => Some(MoreFound::Nothing),
        Entry::Consumed { .. } | Entry::Discarded { .. } => Some(found_where_taken(table)),
        Entry::FailedAt { .. } => Some(found_where_failed(looked, table)),
        _ => None,
    }
}

/// A signal is taken that has no priority: where a state has priority inputs, no signal of these was found.
fn found_where_taken(table: Option<&StateTable>) -> MoreFound
    ensures { result ≡ found_where_taken (option_copied table.entry) }
{
    let Some(table) = table else {
        return MoreFound::Anything;
    };
    if table.selection.has_priority() {
        return MoreFound::Nothing;
    }
    MoreFound::Anything
}

/// A condition fails. Those of continuous signals are asked only where nothing is found. The enabling ones are asked
/// before, and no entry is looked for where one fails. If a state has both kinds, `looked` says which of them failed.
fn found_where_failed(looked: bool, table: Option<&StateTable>) -> MoreFound
    ensures { result ≡ found_where_failed looked (option_copied table.entry) }
{
    match table {
        Some(table) if table.continuous.is_empty() => MoreFound::Anything,
        Some(table) if looked || table.conditions.is_empty() => MoreFound::Nothing,
        Some(_) => MoreFound::Anything,
        None => MoreFound::Anything,
    }
}
