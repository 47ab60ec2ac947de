//! How the object of a transition opens.

ghost use Rattle.std.specs.Prelude.{◌≡◌, ◌++◌, codes, OnOk};
ghost use Rattle.std.specs.String.{string_bytes};
ghost use Rattle.run_record.specs.Entry.{event_of, got_of};
ghost use Rattle.view_text.specs.JsonText.{by_json, does_json, going_json, got_json, message_json, opening, taken_json, when_json};
ghost use Rattle.view_text.specs.JsonValue.{arrow_json, key, pid_json};

use crate::json::pieces::{push_arrow, push_count, push_key, push_pid, push_text, push_values};
use crate::walk::Step;
use port_model::{Pid, SignalId, Value};
use run_record::{Entry, Record, Stimulus};
use sdl_report::{process_name, push_number, signal_name};
use sdl_system::System;
use std::alloc::AllocError;
use view_timeline::Link;

/// Appends when a transition begins, whose it is, and by what.
pub fn push_opening(text: &mut String, step: &Step<'_>, system: &System) -> Result<(), AllocError>
    ensures { OnOk result (string_bytes text.new ≡ string_bytes text.old
        ++ opening system.now step.now.«record».now (event_of step.now.entry step.now.values.now) step.now.link) }
{
    match &step.entry {
        Entry::Start { at } => push_by(text, *at, "start", step.record, system),
        Entry::Consumed { at, got } => push_taken(text, *at, "input", *got, step, system),
        Entry::Prior { at, got } => push_taken(text, *at, "priority", *got, step, system),
        Entry::Discarded { at, got } => push_taken(text, *at, "discard", *got, step, system),
        Entry::Provided { at, number } => {
            push_by(text, *at, "provided", step.record, system)?;
            push_count(text, "number", *number as u64)
        }
        Entry::FailedAt { at, why } => {
            push_by(text, *at, "failed", step.record, system)?;
            write!(text, ",\"failure\":\"{why}\"")
        }
        _ => Ok(()),
    }
}

/// Appends how an object opens with which a transition goes on that began at this time, if one does.
pub fn push_going(
    text: &mut String,
    began: Option<u64>,
    record: &Record,
    system: &System,
) -> Result<(), AllocError>
    ensures { OnOk result (string_bytes text.new ≡ string_bytes text.old
        ++ going_json system.now «record».now began) }
{
    let Some(at) = began else {
        return Ok(());
    };
    push_by(text, at, "goes on", record, system)?;
    push_does(text)
}

/// Appends that what is done follows.
pub fn push_does(text: &mut String) -> Result<(), AllocError>
    ensures { OnOk result (string_bytes text.new ≡ string_bytes text.old ++ does_json) }
{
    push_key(text, "does")?;
    text.push('[')
}

/// Appends `{"at":7,"instance":1,"process":"P"`.
fn push_when(text: &mut String, at: u64, record: &Record, system: &System) -> Result<(), AllocError>
    ensures { OnOk result (string_bytes text.new ≡ string_bytes text.old ++ when_json system.now «record».now at) }
{
    text.push_str("{\"at\":")?;
    push_number(text, at)?;
    push_count(text, "instance", record.pid() as u64)?;
    push_text(text, "process", process_name(system, record.process()))
}

/// Appends that, and the word for what it begins with.
fn push_by(
    text: &mut String,
    at: u64,
    word: &str,
    record: &Record,
    system: &System,
) -> Result<(), AllocError>
    ensures { OnOk result (string_bytes text.new ≡ string_bytes text.old
        ++ by_json system.now «record».now at word.now) }
{
    push_when(text, at, record, system)?;
    push_text(text, "by", word)
}

/// Appends that, and what is taken.
fn push_taken(
    text: &mut String,
    at: u64,
    word: &str,
    got: Stimulus,
    step: &Step<'_>,
    system: &System,
) -> Result<(), AllocError>
    ensures { OnOk result (string_bytes text.new ≡ string_bytes text.old
        ++ taken_json system.now step.now.«record».now at word.now (got_of got step.now.values.now) step.now.link) }
{
    push_by(text, at, word, step.record, system)?;
    push_got(text, got, step, system)
}

/// Appends a signal or a timer that is taken, and where it came from.
fn push_got(
    text: &mut String,
    got: Stimulus,
    step: &Step<'_>,
    system: &System,
) -> Result<(), AllocError>
    ensures { OnOk result (string_bytes text.new ≡ string_bytes text.old
        ++ got_json system.now step.now.«record».now (got_of got step.now.values.now) step.now.link) }
{
    let sender = got.origin.sender(step.record.pid());
    push_message(text, got.name, step.values, sender, step.link, system)
}

/// Appends a signal or a timer with its values, who sent it, and its arrow.
fn push_message(
    text: &mut String,
    signal: SignalId,
    values: &[Value],
    sender: Pid,
    link: Link,
    system: &System,
) -> Result<(), AllocError>
    ensures { OnOk result (string_bytes text.new ≡ string_bytes text.old
        ++ message_json system.now signal values.now sender link) }
{
    push_text(text, "signal", signal_name(system, signal))?;
    push_values(text, values)?;
    push_from(text, sender, link)
}

/// Appends who sent what is taken, and its arrow.
fn push_from(text: &mut String, sender: Pid, link: Link) -> Result<(), AllocError>
    ensures { OnOk result (string_bytes text.new ≡ string_bytes text.old
        ++ key (codes "from") ++ pid_json sender ++ arrow_json link) }
{
    push_key(text, "from")?;
    push_pid(text, sender)?;
    push_arrow(text, link)
}
