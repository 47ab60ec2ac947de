//! The signals that a run sends to the environment.

ghost use Rattle.std.specs.Prelude.{◌≡◌, ℕ, List, [], ◌++◌, IfOk, OnOk};
ghost use Rattle.std.specs.List.{AllByRecursion};
ghost use Rattle.std.specs.Option.{option_map_or, unwrap_or};
ghost use Rattle.std.specs.String.{string_bytes};
ghost use Rattle.port_model.specs.declared.values.item.SignalId.{SignalId};
ghost use Rattle.port_model.specs.declared.values.value.Value.{Value};
ghost use Rattle.run_record.specs.Entry.{event_of};
ghost use Rattle.sdl_command_line.specs.Outputs.{output_line, outputs_by_sender, outputs_in, outputs_of, sent_text, time_after};
ghost use Rattle.sdl_system.specs.System.{SystemValue};
ghost use Rattle.view_text.specs.Walk.{all_steps};
ghost use Rattle.view_timeline.specs.Moves.{IsPart};
ghost use Rattle.view_timeline.specs.Timeline.{AreBegun};

use port_model::{SignalId, Ticks, Value};
use run_record::{Entry, Record, Report};
use sdl_report::push_signal;
use sdl_system::{System, Target};
use std::alloc::{AllocError, Global};
use view_text::Walk;
use view_timeline::{Cursor, Timeline};

/// The signals that a run sends to the environment, in the order of a timeline of its report: a line each, as
/// `3 val(1) from #1`.
pub fn outputs(
    alloc: Global,
    report: &Report,
    told: &Timeline,
    system: &System,
) -> Result<String, AllocError>
    requires parts { AllByRecursion (IsPart report.now.records.items) told.now.moves.items }
    requires begun { AreBegun report.now.records.items told.now }
    ensures { IfOk result (λ text. string_bytes text
        ≡ outputs_of system.now (all_steps report.now.records.items told.now)) }
{
    let mut text = String::new(alloc);
    let mut walk = Walk::new(alloc, report, told)?;
    while let Some(step) = walk.next() {
        let began = time_or_first(step.at);
        push_sent(
            &mut text,
            began,
            step.record.pid(),
            step.entry,
            step.values,
            system,
        )?;
    }
    Ok(text)
}

/// The same signals, those of each instance by themselves, by ascending numbers.
pub fn outputs_by_sender(
    alloc: Global,
    report: &Report,
    system: &System,
) -> Result<String, AllocError>
    ensures { IfOk result (λ text. string_bytes text
        ≡ outputs_by_sender system.now report.now.records.items) }
{
    let mut text = String::new(alloc);
    for record in &report.records {
        push_outputs(&mut text, record, system)?;
    }
    Ok(text)
}

/// Adds the signals that an instance sends to the environment.
fn push_outputs(text: &mut String, record: &Record, system: &System) -> Result<(), AllocError>
    ensures { OnOk result (string_bytes text.new ≡ string_bytes text.old
        ++ outputs_in system.now «record».now.pid 0 «record».now.events) }
{
    let mut cursor = Cursor::new(record)?;
    let mut now = 0;
    while let Some(next) = cursor.next() {
        now = time_after(now, next.entry);
        push_sent(text, now, record.pid(), next.entry, next.values, system)?;
        cursor = next.rest;
    }
    Ok(())
}

/// When a transition began. A record closes at no time, and sends nothing then.
fn time_or_first(at: Option<Ticks>) -> u64
    ensures { result ≡ unwrap_or at 0 }
{
    match at {
        Some(at) => at.get(),
        None => 0,
    }
}

/// The time after an event: one with which a transition begins has its own.
fn time_after(now: u64, entry: Entry) -> u64
    ensures { (values : List Value) → result ≡ time_after now (event_of entry values) }
{
    match entry {
        Entry::Start { at }
        | Entry::Consumed { at, .. }
        | Entry::Prior { at, .. }
        | Entry::Discarded { at, .. }
        | Entry::Provided { at, .. }
        | Entry::FailedAt { at, .. } => at,
        _ => now,
    }
}

/// Adds the line of an event of this instance, if that is an output to the environment.
fn push_sent(
    text: &mut String,
    now: u64,
    who: u32,
    entry: Entry,
    values: &[Value],
    system: &System,
) -> Result<(), AllocError>
    ensures { OnOk result (string_bytes text.new ≡ string_bytes text.old
        ++ sent_text system.now now who (event_of entry values.now)) }
{
    match sent_outside(entry) {
        Some(signal) => push_output(text, now, who, signal, values, system),
        None => Ok(()),
    }
}

/// The signal that an event sends to the environment, if it sends one there.
fn sent_outside(entry: Entry) -> Option<SignalId>
    ensures { (system : SystemValue) (now who : ℕ) (values : List Value) →
        sent_text system now who (event_of entry values)
        ≡ option_map_or (λ (signal : SignalId). output_line system now who signal values) result [] }
{
    match entry {
        Entry::Output {
            signal,
            target: Target::Env,
            ..
        } => Some(signal),
        _ => None,
    }
}

/// Adds the line of an output to the environment: its time, the signal with its values, and who sends it.
fn push_output(
    text: &mut String,
    now: u64,
    who: u32,
    signal: SignalId,
    values: &[Value],
    system: &System,
) -> Result<(), AllocError>
    ensures { OnOk result (string_bytes text.new ≡ string_bytes text.old
        ++ output_line system.now now who signal values.now) }
{
    write!(text, "{now} ")?;
    push_signal(text, signal, values, system)?;
    writeln!(text, " from #{who}")
}
