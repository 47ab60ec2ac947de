//! What a transition does, an object each.

ghost use Rattle.std.specs.Prelude.{◌≡◌, ◌++◌, codes, OnOk};
ghost use Rattle.std.specs.Fmt.{decimal};
ghost use Rattle.std.specs.String.{string_bytes};
ghost use Rattle.run_record.specs.Entry.{event_of};
ghost use Rattle.sdl_report.specs.Name.{process_name, signal_name, variable_name};
ghost use Rattle.view_text.specs.JsonText.{created_json, deed_json, reached_json};
ghost use Rattle.view_text.specs.JsonValue.{key, object, quoted, value_json, values_json};

use crate::fate::fate_of;
use crate::json::pieces::{
    push_arrow, push_count, push_fate, push_key, push_quoted, push_target, push_value, push_values,
};
use crate::walk::Step;
use port_model::{SignalId, Value};
use run_record::{Entry, Record};
use sdl_report::{process_name, push_number, signal_name, state_name, variable_name};
use sdl_system::{ProcessId, System, Target, VariableId};
use std::alloc::AllocError;
use view_timeline::{Link, Timeline};

/// Appends what an event of a transition does.
pub fn push_deed(
    text: &mut String,
    step: &Step<'_>,
    told: &Timeline,
    system: &System,
) -> Result<(), AllocError>
    ensures { OnOk result (string_bytes text.new ≡ string_bytes text.old
        ++ deed_json system.now told.now step.now.«record».now
        (event_of step.now.entry step.now.values.now) step.now.link) }
{
    match &step.entry {
        Entry::Task { variable, value } => push_task(text, *variable, value, step.record, system),
        Entry::Output { signal, target, .. } => {
            push_output(text, *signal, *target, step, told, system)
        }
        Entry::Set { timer, due } => push_set(text, *timer, step.values, *due, system),
        Entry::Reset { timer } => push_reset(text, *timer, step.values, system),
        Entry::Create { process, pid } => push_create(text, *process, *pid, system),
        Entry::NextState { state } => push_word(
            text,
            "nextstate",
            state_name(system, step.record.process(), *state),
        ),
        Entry::Stop => text.push_str("{\"stop\":true}"),
        Entry::Failed { why } => write!(text, "{{\"failed\":\"{why}\"}}"),
        _ => Ok(()),
    }
}

/// Appends an assignment.
fn push_task(
    text: &mut String,
    variable: VariableId,
    value: &Value,
    record: &Record,
    system: &System,
) -> Result<(), AllocError>
    ensures { OnOk result (string_bytes text.new ≡ string_bytes text.old
        ++ object (codes "task") (quoted (variable_name system.now «record».now.process variable)
        ++ key (codes "value") ++ value_json value.now)) }
{
    push_named(
        text,
        "task",
        variable_name(system, record.process(), variable),
    )?;
    push_key(text, "value")?;
    push_value(text, value)?;
    text.push('}')
}

/// Appends an output.
fn push_output(
    text: &mut String,
    signal: SignalId,
    target: Target,
    step: &Step<'_>,
    told: &Timeline,
    system: &System,
) -> Result<(), AllocError>
    ensures { OnOk result (string_bytes text.new ≡ string_bytes text.old
        ++ object (codes "output") (quoted (signal_name system.now signal)
        ++ key (codes "values") ++ values_json step.now.values.now
        ++ key (codes "to") ++ reached_json told.now target step.now.link)) }
{
    push_signal(text, "output", signal, step.values, system)?;
    push_reached(text, target, step.link, told)?;
    text.push('}')
}

/// Appends whom an output reached, and its arrow, or what became of it.
fn push_reached(
    text: &mut String,
    target: Target,
    link: Link,
    told: &Timeline,
) -> Result<(), AllocError>
    ensures { OnOk result (string_bytes text.new ≡ string_bytes text.old
        ++ key (codes "to") ++ reached_json told.now target link) }
{
    push_key(text, "to")?;
    push_target(text, target)?;
    push_arrow(text, link)?;
    push_fate(text, fate_of(told, target, link))
}

/// Appends a set.
fn push_set(
    text: &mut String,
    timer: SignalId,
    values: &[Value],
    due: u64,
    system: &System,
) -> Result<(), AllocError>
    ensures { OnOk result (string_bytes text.new ≡ string_bytes text.old
        ++ object (codes "set") (quoted (signal_name system.now timer)
        ++ key (codes "values") ++ values_json values.now ++ key (codes "due") ++ decimal due)) }
{
    push_signal(text, "set", timer, values, system)?;
    push_count(text, "due", due)?;
    text.push('}')
}

/// Appends a reset.
fn push_reset(
    text: &mut String,
    timer: SignalId,
    values: &[Value],
    system: &System,
) -> Result<(), AllocError>
    ensures { OnOk result (string_bytes text.new ≡ string_bytes text.old
        ++ object (codes "reset") (quoted (signal_name system.now timer)
        ++ key (codes "values") ++ values_json values.now)) }
{
    push_signal(text, "reset", timer, values, system)?;
    text.push('}')
}

/// Appends a create.
fn push_create(
    text: &mut String,
    process: ProcessId,
    pid: Option<u32>,
    system: &System,
) -> Result<(), AllocError>
    ensures { OnOk result (string_bytes text.new ≡ string_bytes text.old
        ++ object (codes "create") (quoted (process_name system.now process)
        ++ key (codes "instance") ++ created_json pid)) }
{
    push_named(text, "create", process_name(system, process))?;
    push_key(text, "instance")?;
    push_created(text, pid)?;
    text.push('}')
}

fn push_created(text: &mut String, pid: Option<u32>) -> Result<(), AllocError>
    ensures { OnOk result (string_bytes text.new ≡ string_bytes text.old ++ created_json pid) }
{
    match pid {
        Some(number) => push_number(text, number as u64),
        None => text.push_str("null"),
    }
}

/// Appends `{"key":"signal","values":[..]`.
fn push_signal(
    text: &mut String,
    name: &str,
    signal: SignalId,
    values: &[Value],
    system: &System,
) -> Result<(), AllocError>
    ensures { OnOk result (string_bytes text.new ≡ string_bytes text.old
        ++ codes "{" ++ quoted name.now ++ codes ":" ++ quoted (signal_name system.now signal)
        ++ key (codes "values") ++ values_json values.now) }
{
    push_named(text, name, signal_name(system, signal))?;
    push_values(text, values)
}

/// Appends `{"key":"word"}`.
fn push_word(text: &mut String, name: &str, word: &str) -> Result<(), AllocError>
    ensures { OnOk result (string_bytes text.new ≡ string_bytes text.old ++ object name.now (quoted word.now)) }
{
    push_named(text, name, word)?;
    text.push('}')
}

/// Appends `{"key":"word"`.
fn push_named(text: &mut String, name: &str, word: &str) -> Result<(), AllocError>
    ensures { OnOk result (string_bytes text.new ≡ string_bytes text.old
        ++ codes "{" ++ quoted name.now ++ codes ":" ++ quoted word.now) }
{
    text.push('{')?;
    push_quoted(text, name)?;
    text.push(':')?;
    push_quoted(text, word)
}
