//! The parts of a statement, each of which makes an event.

ghost use Rattle.std.specs.Prelude.{◌≡◌, true};
ghost use Rattle.port_model.specs.Value.{ValueList};
ghost use Rattle.run_record.specs.Entry.{event_of};
ghost use Rattle.sdl_failures.specs.Part.{DoesCreate, DoesOutput, DoesPart, DoesReset, DoesSet, DoesTask, parts_of};

use run_record::Entry;
use sdl_system::{Assignment, Creation, Output, Setting, Statement, TimerUse};

/// How many parts a statement has. None: it is a decision, or ends a transition.
pub fn parts_of(statement: &Statement) -> Option<usize>
    ensures { result ≡ parts_of statement.now }
{
    match statement {
        Statement::Task(list) => Some(list.len()),
        Statement::Output(output) => Some(output.signals.len()),
        Statement::Set(list) => Some(list.len()),
        Statement::Reset(list) => Some(list.len()),
        Statement::Create(_) => Some(1),
        Statement::Join(_) => Some(0),
        _ => None,
    }
}

/// Whether an event is that of a part. Its values say nothing.
pub fn does_part(statement: &Statement, part: usize, entry: Entry) -> bool
    ensures { result ≡ true → (values : ValueList) → DoesPart statement.now part (event_of entry values) }
{
    match statement {
        Statement::Task(list) => does_task(list, part, entry),
        Statement::Output(output) => does_output(output, part, entry),
        Statement::Set(list) => does_set(list, part, entry),
        Statement::Reset(list) => does_reset(list, part, entry),
        Statement::Create(creation) => does_create(creation, part, entry),
        _ => false,
    }
}

fn does_task(list: &[Assignment], part: usize, entry: Entry) -> bool
    ensures { result ≡ true → (values : ValueList) → DoesTask list.now part (event_of entry values) }
{
    let Entry::Task { variable, .. } = entry else {
        return false;
    };
    match list.get(part) {
        Some(one) => is_number(one.variable.0, variable.0),
        None => false,
    }
}

fn does_output(output: &Output, part: usize, entry: Entry) -> bool
    ensures { result ≡ true → (values : ValueList) → DoesOutput output.now part (event_of entry values) }
{
    let Entry::Output { signal, .. } = entry else {
        return false;
    };
    match output.signals.get(part) {
        Some(one) => is_number(one.signal.0, signal.0),
        None => false,
    }
}

fn does_set(list: &[Setting], part: usize, entry: Entry) -> bool
    ensures { result ≡ true → (values : ValueList) → DoesSet list.now part (event_of entry values) }
{
    let Entry::Set { timer, .. } = entry else {
        return false;
    };
    match list.get(part) {
        Some(one) => is_number(one.timer.timer.0, timer.0),
        None => false,
    }
}

fn does_reset(list: &[TimerUse], part: usize, entry: Entry) -> bool
    ensures { result ≡ true → (values : ValueList) → DoesReset list.now part (event_of entry values) }
{
    let Entry::Reset { timer, .. } = entry else {
        return false;
    };
    match list.get(part) {
        Some(one) => is_number(one.timer.0, timer.0),
        None => false,
    }
}

fn does_create(creation: &Creation, part: usize, entry: Entry) -> bool
    ensures { result ≡ true → (values : ValueList) → DoesCreate creation.now part (event_of entry values) }
{
    let Entry::Create { process, .. } = entry else {
        return false;
    };
    if part != 0 {
        return false;
    }
    is_number(creation.process.0, process.0)
}

/// Whether a number is this one.
pub fn is_number(one: u32, wanted: u32) -> bool
    ensures { result ≡ true → one ≡ wanted }
{
    one == wanted
}
