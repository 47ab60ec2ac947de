//! The lines of events.

ghost use Rattle.std.specs.Fmt.{decimal};
ghost use Rattle.std.specs.Prelude.{◌≡◌, ◌++◌, codes, OnOk};
ghost use Rattle.std.specs.String.{string_bytes};
ghost use Rattle.port_model.specs.Text.{value_text, values_text};
ghost use Rattle.run_record.specs.Entry.{event_of, got_of};
ghost use Rattle.sdl_report.specs.Name.{process_name, variable_name};
ghost use Rattle.sdl_report.specs.ReportText.{created_text, event_line, line, signal_text, stimulus_text, target_text};

use crate::names::{process_name, signal_name, state_name, variable_name};
use crate::pieces::{push_number, push_pid, push_target, push_value};
use port_model::{SignalId, Value};
use run_record::{Entry, Record, Stimulus};
use sdl_system::{ProcessId, System, Target, VariableId};
use std::alloc::AllocError;

/// Appends the line of an event of the record, which is an entry with its values.
pub fn push_event(
    text: &mut String,
    entry: &Entry,
    values: &[Value],
    record: &Record,
    system: &System,
) -> Result<(), AllocError>
    ensures { OnOk result (string_bytes text.new ≡ string_bytes text.old
        ++ event_line system.now «record».now (event_of entry.now values.now)) }
{
    match entry {
        Entry::Start { at } => {
            push_number(text, *at)?;
            text.push_str(" start\n")
        }
        Entry::Consumed { at, got } => {
            push_reception(text, *at, " input ", *got, values, record, system)
        }
        Entry::Prior { at, got } => {
            push_reception(text, *at, " priority ", *got, values, record, system)
        }
        Entry::Discarded { at, got } => {
            push_reception(text, *at, " discard ", *got, values, record, system)
        }
        Entry::Provided { at, number } => writeln!(text, "{at} provided {number}"),
        Entry::FailedAt { at, why } => writeln!(text, "{at} failed {why}"),
        Entry::Task { variable, value } => push_task(text, *variable, value, record, system),
        Entry::Output { signal, target, .. } => push_output(text, *signal, values, *target, system),
        Entry::Set { timer, due } => push_set(text, *timer, values, *due, system),
        Entry::Reset { timer } => push_reset(text, *timer, values, system),
        Entry::Create { process, pid } => push_create(text, *process, *pid, system),
        Entry::NextState { state } => push_name(
            text,
            "  nextstate ",
            state_name(system, record.process(), *state),
        ),
        Entry::Stop => text.push_str("  stop\n"),
        Entry::Failed { why } => writeln!(text, "  failed {why}"),
        Entry::Rest { state } => {
            push_name(text, "rest ", state_name(system, record.process(), *state))
        }
        Entry::Cut { state: Some(state) } => {
            push_name(text, "cut ", state_name(system, record.process(), *state))
        }
        Entry::Cut { state: None } => text.push_str("cut start\n"),
    }
}

/// Appends the line of a name.
fn push_name(text: &mut String, beginning: &str, name: &str) -> Result<(), AllocError>
    ensures { OnOk result (string_bytes text.new ≡ string_bytes text.old
        ++ line (beginning.now ++ name.now)) }
{
    text.push_str(beginning)?;
    text.push_str(name)?;
    text.push('\n')
}

/// Appends the line of a signal or a timer that was taken: when, the word for what was done with it, and what it was.
#[inline(always)]
fn push_reception(
    text: &mut String,
    at: u64,
    word: &str,
    got: Stimulus,
    values: &[Value],
    record: &Record,
    system: &System,
) -> Result<(), AllocError>
    ensures { OnOk result (string_bytes text.new ≡ string_bytes text.old
        ++ line (decimal at ++ word.now ++ stimulus_text system.now «record».now (got_of got values.now))) }
{
    push_number(text, at)?;
    text.push_str(word)?;
    push_stimulus(text, got, values, record, system)
}

/// Appends the line of a task.
#[inline(always)]
fn push_task(
    text: &mut String,
    variable: VariableId,
    value: &Value,
    record: &Record,
    system: &System,
) -> Result<(), AllocError>
    ensures { OnOk result (string_bytes text.new ≡ string_bytes text.old
        ++ line (codes "  task " ++ variable_name system.now «record».now.process variable
        ++ codes " := " ++ value_text value.now)) }
{
    text.push_str("  task ")?;
    text.push_str(variable_name(system, record.process(), variable))?;
    text.push_str(" := ")?;
    push_value(text, value)?;
    text.push('\n')
}

/// Appends the line of a set.
#[inline(always)]
fn push_set(
    text: &mut String,
    timer: SignalId,
    values: &[Value],
    due: u64,
    system: &System,
) -> Result<(), AllocError>
    ensures { OnOk result (string_bytes text.new ≡ string_bytes text.old
        ++ line (codes "  set " ++ signal_text system.now timer values.now ++ codes " " ++ decimal due)) }
{
    text.push_str("  set ")?;
    push_signal(text, timer, values, system)?;
    text.push(' ')?;
    push_number(text, due)?;
    text.push('\n')
}

/// Appends the line of a reset.
#[inline(always)]
fn push_reset(
    text: &mut String,
    timer: SignalId,
    values: &[Value],
    system: &System,
) -> Result<(), AllocError>
    ensures { OnOk result (string_bytes text.new ≡ string_bytes text.old
        ++ line (codes "  reset " ++ signal_text system.now timer values.now)) }
{
    text.push_str("  reset ")?;
    push_signal(text, timer, values, system)?;
    text.push('\n')
}

/// Appends `S from X` and ends the line.
pub fn push_stimulus(
    text: &mut String,
    got: Stimulus,
    values: &[Value],
    record: &Record,
    system: &System,
) -> Result<(), AllocError>
    ensures { OnOk result (string_bytes text.new ≡ string_bytes text.old
        ++ line (stimulus_text system.now «record».now (got_of got values.now))) }
{
    push_signal(text, got.name, values, system)?;
    let sender = got.origin.sender(record.pid());
    text.push_str(" from ")?;
    push_pid(text, sender)?;
    text.push('\n')
}

/// Appends the line of an output.
fn push_output(
    text: &mut String,
    signal: SignalId,
    values: &[Value],
    target: Target,
    system: &System,
) -> Result<(), AllocError>
    ensures { OnOk result (string_bytes text.new ≡ string_bytes text.old
        ++ line (codes "  output " ++ signal_text system.now signal values.now ++ codes " to " ++ target_text target)) }
{
    text.push_str("  output ")?;
    push_signal(text, signal, values, system)?;
    text.push_str(" to ")?;
    push_target(text, target)?;
    text.push('\n')
}

/// Appends the line of a create.
fn push_create(
    text: &mut String,
    process: ProcessId,
    pid: Option<u32>,
    system: &System,
) -> Result<(), AllocError>
    ensures { OnOk result (string_bytes text.new ≡ string_bytes text.old
        ++ line (codes "  create " ++ process_name system.now process ++ codes " " ++ created_text pid)) }
{
    let name = process_name(system, process);
    match pid {
        Some(number) => writeln!(text, "  create {name} #{number}"),
        None => writeln!(text, "  create {name} null"),
    }
}

/// Appends a signal or a timer with its values.
pub fn push_signal(
    text: &mut String,
    signal: SignalId,
    values: &[Value],
    system: &System,
) -> Result<(), AllocError>
    ensures { OnOk result (string_bytes text.new ≡ string_bytes text.old
        ++ signal_text system.now signal values.now) }
{
    text.push_str(signal_name(system, signal))?;
    push_values(text, values)
}

/// Appends values in parentheses, or nothing where there are none.
pub fn push_values(text: &mut String, values: &[Value]) -> Result<(), AllocError>
    ensures { OnOk result (string_bytes text.new ≡ string_bytes text.old ++ values_text values.now) }
{
    let Some((first, more)) = values.split_first() else {
        return Ok(());
    };
    text.push('(')?;
    push_value(text, first)?;
    for value in more {
        text.push(',')?;
        push_value(text, value)?;
    }
    text.push(')')
}
