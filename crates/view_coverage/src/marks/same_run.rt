//! Whether a marked run is the run itself, except for the marks.

ghost use Rattle.std.specs.Prelude.{◌≡◌, [], ◌∷◌, ◌++◌, IsTrue, if◌then◌else◌, map};
ghost use Rattle.std.specs.List.{filter};
ghost use Rattle.run_record.specs.Told.{event_told};
ghost use Rattle.view_coverage.specs.Marks.{IsMarkedRun, deeds, is_no_mark, unmarked};

use crate::marks::entry::{mark_of, variable_in};
use crate::marks::same_entry::same_entry;
use port_model::Value;
use run_record::{Reader, Record, Report, Told};
use sdl_system::{System, VariableId};

/// Whether the report of a marked run is the report of the run itself, except for the marks. The system is that
/// without marks.
pub fn is_marked_run(system: &System, plain: &Report, marked: &Report) -> bool
    ensures { IsTrue result → IsMarkedRun system.now plain.now marked.now }
{
    plain.end == marked.end
        && plain.whole == marked.whole
        && are_marked(system, &plain.records, &marked.records)
}

fn are_marked(system: &System, plain: &[Record], marked: &[Record]) -> bool
    ensures { IsTrue result → map deeds plain.now ≡ map (unmarked system.now) marked.now }
{
    if plain.len() != marked.len() {
        return false;
    }
    for index in 0..plain.len() {
        if !is_marked(system, &plain[index], &marked[index]) {
            return false;
        }
    }
    true
}

/// Whether a record of a marked run is that of the run itself, except for the marks.
fn is_marked(system: &System, plain: &Record, marked: &Record) -> bool
    ensures { IsTrue result → deeds plain.now ≡ unmarked system.now marked.now }
{
    let Ok(Some(variable)) = variable_in(system, marked.process()) else {
        return false;
    };
    if plain.process() != marked.process() || plain.pid() != marked.pid() {
        return false;
    }
    if plain.parent() != marked.parent() {
        return false;
    }
    has_events(variable, plain, marked)
}

/// Whether a record has the events of a marked one that are no marks.
fn has_events(variable: VariableId, plain: &Record, marked: &Record) -> bool
    ensures { IsTrue result → plain.now.events ≡ filter (is_no_mark variable) marked.now.events }
{
    let mut rest = plain.reader();
    for told in marked.reader() {
        if !goes_on(variable, &mut rest, told) {
            return false;
        }
    }
    is_done(&mut rest)
}

/// Whether an event of a marked run is a mark, or the next of these. Then they go on after it.
fn goes_on(variable: VariableId, rest: &mut Reader<'_>, told: Told<'_>) -> bool
    ensures { IsTrue result → (if is_no_mark variable (event_told told.entry)
        then event_told told.entry ∷ [] else []) ++ rest.new ≡ rest.old }
{
    if mark_of(variable, told).is_some() {
        return true;
    }
    is_next(rest, told)
}

/// Whether the next of these events is this one. Then they go on after it.
fn is_next(rest: &mut Reader<'_>, told: Told<'_>) -> bool
    ensures { IsTrue result → rest.old ≡ event_told told.entry ∷ rest.new }
{
    match rest.next() {
        Some(next) => is_same(next, told),
        None => false,
    }
}

/// Whether no event is left.
fn is_done(rest: &mut Reader<'_>) -> bool
    ensures { IsTrue result → rest.old ≡ [] }
{
    match rest.next() {
        Some(_) => false,
        None => true,
    }
}

/// Whether the two are the same event.
fn is_same(one: Told<'_>, other: Told<'_>) -> bool
    ensures { IsTrue result → event_told one.entry ≡ event_told other.entry }
{
    if same_entry(one.entry, other.entry) {
        are_same(one.values, other.values)
    } else {
        false
    }
}

/// Whether these are the same values.
#[tactic(auto, using(crate::proofs::MarkLemmas::values_same))]
fn are_same(values: &[Value], others: &[Value]) -> bool
    ensures { IsTrue result → values.now ≡ others.now }
{
    values == others
}
