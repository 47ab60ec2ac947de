//! The text of an event.

ghost use Rattle.std.specs.Prelude.{◌≡◌, ◌++◌, codes, OnOk};
ghost use Rattle.std.specs.String.{string_bytes};
ghost use Rattle.port_model.specs.Text.{value_text};
ghost use Rattle.run_record.specs.Entry.{event_of, got_of};
ghost use Rattle.sdl_report.specs.Name.{variable_name};
ghost use Rattle.view_text.specs.EventText.{at_text, closed_text, created_text, due_text, entered_text, event_text, failed_at_text, failed_text, message_text, output_text, party_name, provided_text, reached_text, receiver_text, refused_text, reset_text, sender_name, set_text, start_text, taken_text};
ghost use Rattle.view_timeline.specs.declared.moves.Link.TheVariants as is;

use crate::fate::{Fate, fate_of};
use crate::msc::names::{
    Cast, push_instance_name, push_message, push_party_name, push_sender_name, push_word,
};
use port_model::{Pid, SignalId, Value};
use run_record::{Entry, Failure, Origin, Record, Stimulus};
use sdl_report::{process_name, push_number, push_value, state_name, variable_name};
use sdl_system::{ProcessId, System, Target};
use std::alloc::AllocError;
use view_timeline::Link;

/// Appends an event of a record, an entry with its values and its link, without the `;` after it.
pub fn push_event_text(
    text: &mut String,
    entry: &Entry,
    values: &[Value],
    link: Link,
    record: &Record,
    cast: &Cast<'_>,
) -> Result<(), AllocError>
    ensures { OnOk result (string_bytes text.new ≡ string_bytes text.old
        ++ event_text cast.now.system.now cast.now.report.now.records.items cast.now.told.now «record».now
        (event_of entry.now values.now) link) }
{
    let system = cast.system;
    let process = record.process();
    match entry {
        Entry::Start { at } => push_start(text, process_name(system, process), *at),
        Entry::Consumed { at, got } => push_taken(text, *at, "", *got, values, link, cast),
        Entry::Prior { at, got } => push_taken(text, *at, ", priority", *got, values, link, cast),
        Entry::Discarded { at, got } => {
            push_taken(text, *at, ", discarded", *got, values, link, cast)
        }
        Entry::Provided { at, number } => push_provided(text, *at, *number),
        Entry::FailedAt { at, why } => push_failed_at(text, *at, *why),
        Entry::Task { variable, value } => {
            push_task(text, variable_name(system, process, *variable), value)
        }
        Entry::Output { signal, target, .. } => {
            push_output(text, *signal, values, *target, link, cast)
        }
        Entry::Set { timer, due } => push_set(text, *timer, values, *due, system),
        Entry::Reset { timer } => push_reset(text, *timer, values, system),
        Entry::Create { process, pid } => push_create(text, *process, *pid, system),
        Entry::NextState { state } => push_entered(text, state_name(system, process, *state)),
        Entry::Stop => text.push_str("stop"),
        Entry::Failed { why } => write!(text, "action 'failed {why}'; stop"),
        Entry::Rest { state } => push_closed(text, "rest ", state_name(system, process, *state)),
        Entry::Cut { state: Some(state) } => {
            push_closed(text, "cut ", state_name(system, process, *state))
        }
        Entry::Cut { state: None } => text.push_str("endinstance comment 'cut start'"),
    }
}

/// Appends that an instance of a process starts.
fn push_start(text: &mut String, process: &str, at: u64) -> Result<(), AllocError>
    ensures { OnOk result (string_bytes text.new ≡ string_bytes text.old ++ start_text process.now at) }
{
    text.push_str("instance process ")?;
    push_word(text, process)?;
    text.push_str("; condition start")?;
    push_at(text, at, "")
}

/// Appends that the transition of a continuous signal begins.
fn push_provided(text: &mut String, at: u64, number: u32) -> Result<(), AllocError>
    ensures { OnOk result (string_bytes text.new ≡ string_bytes text.old ++ provided_text at number) }
{
    text.push_str("action 'provided ")?;
    push_number(text, number as u64)?;
    text.push_str("'")?;
    push_at(text, at, "")
}

/// Appends that an instance fails before it takes a signal.
fn push_failed_at(text: &mut String, at: u64, why: Failure) -> Result<(), AllocError>
    ensures { OnOk result (string_bytes text.new ≡ string_bytes text.old ++ failed_at_text at why) }
{
    push_failed(text, why)?;
    push_at(text, at, "")?;
    text.push_str("; stop")
}

/// Appends why an instance fails.
fn push_failed(text: &mut String, why: Failure) -> Result<(), AllocError>
    ensures { OnOk result (string_bytes text.new ≡ string_bytes text.old ++ failed_text why) }
{
    write!(text, "action 'failed {why}'")
}

/// Appends when a transition begins, with a remark, as a comment.
fn push_at(text: &mut String, at: u64, remark: &str) -> Result<(), AllocError>
    ensures { OnOk result (string_bytes text.new ≡ string_bytes text.old ++ at_text at remark.now) }
{
    text.push_str(" comment 'at ")?;
    push_number(text, at)?;
    text.push_str(remark)?;
    text.push_str("'")
}

/// Appends what was taken from the port, and when.
fn push_taken(
    text: &mut String,
    at: u64,
    remark: &str,
    got: Stimulus,
    values: &[Value],
    link: Link,
    cast: &Cast<'_>,
) -> Result<(), AllocError>
    ensures { OnOk result (string_bytes text.new ≡ string_bytes text.old
        ++ taken_text cast.now.system.now cast.now.report.now.records.items (got_of got values.now) link
        ++ at_text at remark.now) }
{
    match got.origin {
        Origin::Timer => push_timeout(text, got.name, values, cast)?,
        Origin::Null => push_signal(text, got.name, values, Pid::Null, link, cast)?,
        Origin::Env => push_signal(text, got.name, values, Pid::Env, link, cast)?,
        Origin::Instance(number) => {
            push_signal(text, got.name, values, Pid::Of(number), link, cast)?
        }
    }
    push_at(text, at, remark)
}

/// Appends a signal that was taken, and who sent it.
fn push_signal(
    text: &mut String,
    signal: SignalId,
    values: &[Value],
    sender: Pid,
    link: Link,
    cast: &Cast<'_>,
) -> Result<(), AllocError>
    ensures { OnOk result (string_bytes text.new ≡ string_bytes text.old
        ++ codes "in " ++ message_text cast.now.system.now signal link values.now ++ codes " from "
        ++ sender_name cast.now.system.now cast.now.report.now.records.items sender) }
{
    text.push_str("in ")?;
    push_message(text, cast.system, signal, link, values)?;
    text.push_str(" from ")?;
    push_sender_name(text, sender, cast)
}

/// Appends a timer that expired.
fn push_timeout(
    text: &mut String,
    timer: SignalId,
    values: &[Value],
    cast: &Cast<'_>,
) -> Result<(), AllocError>
    ensures { OnOk result (string_bytes text.new ≡ string_bytes text.old
        ++ codes "timeout " ++ message_text cast.now.system.now timer is.Plain values.now) }
{
    text.push_str("timeout ")?;
    push_message(text, cast.system, timer, Link::Plain, values)
}

/// Appends a task: `action 'n := 1'`.
fn push_task(text: &mut String, name: &str, value: &Value) -> Result<(), AllocError>
    ensures { OnOk result (string_bytes text.new ≡ string_bytes text.old
        ++ codes "action '" ++ name.now ++ codes " := " ++ value_text value.now ++ codes "'") }
{
    text.push_str("action '")?;
    text.push_str(name)?;
    text.push_str(" := ")?;
    push_value(text, value)?;
    text.push_str("'")
}

/// Appends an output.
fn push_output(
    text: &mut String,
    signal: SignalId,
    values: &[Value],
    target: Target,
    link: Link,
    cast: &Cast<'_>,
) -> Result<(), AllocError>
    ensures { OnOk result (string_bytes text.new ≡ string_bytes text.old
        ++ output_text cast.now.system.now cast.now.report.now.records.items cast.now.told.now signal values.now
        target link) }
{
    text.push_str("out ")?;
    push_message(text, cast.system, signal, link, values)?;
    text.push_str(" to ")?;
    push_receiver(text, target, link, cast)
}

/// Appends whom an output reached.
fn push_receiver(
    text: &mut String,
    target: Target,
    link: Link,
    cast: &Cast<'_>,
) -> Result<(), AllocError>
    ensures { OnOk result (string_bytes text.new ≡ string_bytes text.old
        ++ receiver_text cast.now.system.now cast.now.report.now.records.items cast.now.told.now target link) }
{
    match target {
        Target::Instance(number) => {
            push_reached(text, number, fate_of(cast.told, target, link), cast)
        }
        Target::Env => text.push_str("env"),
        Target::Null | Target::Nobody => text.push_str("lost"),
    }
}

/// Appends an instance to which a signal was sent, and what became of that, if nobody took it.
fn push_reached(
    text: &mut String,
    number: u32,
    fate: Option<Fate>,
    cast: &Cast<'_>,
) -> Result<(), AllocError>
    ensures { OnOk result (string_bytes text.new ≡ string_bytes text.old
        ++ reached_text (party_name cast.now.system.now cast.now.report.now.records.items number) fate) }
{
    match fate {
        None => push_party_name(text, number, cast),
        Some(fate) => {
            text.push_str("lost ")?;
            push_party_name(text, number, cast)?;
            text.push_str(" comment '")?;
            text.push_str(fate.word())?;
            text.push_str("'")
        }
    }
}

/// Appends a set, with the time when the timer is due.
fn push_set(
    text: &mut String,
    timer: SignalId,
    values: &[Value],
    due: u64,
    system: &System,
) -> Result<(), AllocError>
    ensures { OnOk result (string_bytes text.new ≡ string_bytes text.old
        ++ set_text system.now timer values.now due) }
{
    text.push_str("starttimer ")?;
    push_message(text, system, timer, Link::Plain, values)?;
    push_due(text, due)
}

/// Appends when a timer is due, as a comment.
fn push_due(text: &mut String, due: u64) -> Result<(), AllocError>
    ensures { OnOk result (string_bytes text.new ≡ string_bytes text.old ++ due_text due) }
{
    text.push_str(" comment 'due ")?;
    push_number(text, due)?;
    text.push_str("'")
}

/// Appends a reset.
fn push_reset(
    text: &mut String,
    timer: SignalId,
    values: &[Value],
    system: &System,
) -> Result<(), AllocError>
    ensures { OnOk result (string_bytes text.new ≡ string_bytes text.old ++ reset_text system.now timer values.now) }
{
    text.push_str("stoptimer ")?;
    push_message(text, system, timer, Link::Plain, values)
}

/// Appends a state that is entered.
fn push_entered(text: &mut String, state: &str) -> Result<(), AllocError>
    ensures { OnOk result (string_bytes text.new ≡ string_bytes text.old ++ entered_text state.now) }
{
    text.push_str("condition ")?;
    push_word(text, state)
}

/// Appends a create.
fn push_create(
    text: &mut String,
    process: ProcessId,
    number: Option<u32>,
    system: &System,
) -> Result<(), AllocError>
    ensures { OnOk result (string_bytes text.new ≡ string_bytes text.old
        ++ created_text system.now process number) }
{
    match number {
        Some(number) => {
            text.push_str("create ")?;
            push_instance_name(text, system, process, number)
        }
        None => push_refused(text, process_name(system, process)),
    }
}

/// Appends a create that made nothing.
fn push_refused(text: &mut String, process: &str) -> Result<(), AllocError>
    ensures { OnOk result (string_bytes text.new ≡ string_bytes text.old ++ refused_text process.now) }
{
    text.push_str("action 'create ")?;
    text.push_str(process)?;
    text.push_str(" null'")
}

/// Appends how a record closes, and in which state.
fn push_closed(text: &mut String, how: &str, state: &str) -> Result<(), AllocError>
    ensures { OnOk result (string_bytes text.new ≡ string_bytes text.old ++ closed_text how.now state.now) }
{
    text.push_str("endinstance comment '")?;
    text.push_str(how)?;
    text.push_str(state)?;
    text.push_str("'")
}
