//! What of the script was heard.

ghost use Rattle.std.specs.Prelude.{◌≡◌, ◌++◌, IfOk, OnOk};
ghost use Rattle.std.specs.String.{string_bytes};
ghost use Rattle.port_model.specs.Value.{ValueList};
ghost use Rattle.run_record.specs.Entry.{got_of};
ghost use Rattle.run_record.specs.Told.{event_told};
ghost use Rattle.view_text.specs.LinesText.{heard, heard_in, is_env, is_heard, script_text};

use run_record::{Entry, Origin, Record, Report, Stimulus, Told};
use std::alloc::AllocError;

/// Appends `script: 3 signals, 1 taken`, if not all were.
pub fn push_script(text: &mut String, report: &Report, sent: usize) -> Result<(), AllocError>
    ensures { OnOk result (string_bytes text.new ≡ string_bytes text.old
        ++ script_text sent (heard report.now.records.items)) }
{
    let taken = heard(&report.records)?;
    if sent == taken {
        return Ok(());
    }
    writeln!(text, "script: {sent} signals, {taken} taken")
}

/// How many signals of the environment were taken.
fn heard(records: &[Record]) -> Result<usize, AllocError>
    ensures { IfOk result (λ taken. taken ≡ heard records.now) }
{
    let mut taken = 0usize;
    for record in records {
        taken = taken.checked_add(heard_in(record)).ok_or(AllocError)?;
    }
    Ok(taken)
}

/// How many of them an instance took.
fn heard_in(record: &Record) -> usize
    ensures { result ≡ heard_in «record».now }
{
    record.reader().filter(|told| is_heard(*told)).count()
}

/// Whether the entry takes a signal of the environment.
fn is_heard(told: Told<'_>) -> bool
    ensures { result ≡ is_heard (event_told told.entry) }
{
    match told.entry {
        Entry::Consumed { got, .. } => is_from_env(got),
        Entry::Prior { got, .. } => is_from_env(got),
        Entry::Discarded { got, .. } => is_from_env(got),
        _ => false,
    }
}

/// Whether the environment sent it.
fn is_from_env(got: Stimulus) -> bool
    ensures { (values : ValueList) → result ≡ is_env (got_of got values) }
{
    match got.origin {
        Origin::Env => true,
        Origin::Timer | Origin::Null | Origin::Instance(_) => false,
    }
}
