//! The line of an event, and of a signal of the script that is lost.

ghost use Rattle.std.specs.Prelude.{◌≡◌, ◌++◌, codes, OnOk};
ghost use Rattle.std.specs.String.{string_bytes};
ghost use Rattle.run_record.specs.Entry.{event_of, got_of};
ghost use Rattle.sdl_report.specs.ReportText.{event_text, line, signal_text, stimulus_text, target_text};
ghost use Rattle.view_text.specs.LinesText.{fate_text, going_line, instance_text, linked_text, lost_line, step_line, when_text};
ghost use Rattle.view_text.specs.Sending.{sending_value};
ghost use Rattle.view_text.specs.Step.{step_value};

use crate::fate::{Fate, fate_of};
use crate::lost::lost_fate;
use crate::sending::Sending;
use crate::walk::Step;
use port_model::{SignalId, Value};
use run_record::{Entry, Record, Stimulus};
use sdl_report::{process_name, push_event, push_number, push_signal, push_stimulus, push_target};
use sdl_system::{System, Target};
use std::alloc::AllocError;
use view_timeline::Timeline;

/// Appends the line of an event of a timeline, and before it who goes on, if a transition goes on with it.
pub fn push_step_line(
    text: &mut String,
    step: &Step<'_>,
    told: &Timeline,
    system: &System,
) -> Result<(), AllocError>
    ensures { OnOk result (string_bytes text.new ≡ string_bytes text.old
        ++ step_line system.now told.now (step_value step.now)) }
{
    push_going(text, step.goes_on(), step.record, system)?;
    push_event_line(text, step, told, system)
}

/// Appends `5 #2 Initiator goes on`, if a transition does that began at this time.
fn push_going(
    text: &mut String,
    began: Option<u64>,
    record: &Record,
    system: &System,
) -> Result<(), AllocError>
    ensures { OnOk result (string_bytes text.new ≡ string_bytes text.old
        ++ going_line system.now «record».now began) }
{
    let Some(at) = began else {
        return Ok(());
    };
    push_when(text, at, record, system)?;
    text.push_str(" goes on\n")
}

/// Appends the line of an event.
fn push_event_line(
    text: &mut String,
    step: &Step<'_>,
    told: &Timeline,
    system: &System,
) -> Result<(), AllocError>
    ensures { OnOk result (string_bytes text.new ≡ string_bytes text.old
        ++ line (linked_text system.now told.now step.now.«record».now
        (event_of step.now.entry step.now.values.now) step.now.link)) }
{
    let record = step.record;
    match &step.entry {
        Entry::Start { at } => {
            push_when(text, *at, record, system)?;
            text.push_str(" start\n")
        }
        Entry::Consumed { at, got } => push_taken(text, *at, " input ", *got, step, system),
        Entry::Prior { at, got } => push_taken(text, *at, " priority ", *got, step, system),
        Entry::Discarded { at, got } => push_taken(text, *at, " discard ", *got, step, system),
        Entry::Provided { at, number } => {
            push_when(text, *at, record, system)?;
            writeln!(text, " provided {number}")
        }
        Entry::FailedAt { at, why } => {
            push_when(text, *at, record, system)?;
            writeln!(text, " failed {why}")
        }
        Entry::Rest { .. } => push_owned(text, step, system),
        Entry::Cut { .. } => push_owned(text, step, system),
        Entry::Output { signal, target, .. } => {
            push_sent(text, "  output ", *signal, step.values, *target, system)?;
            push_fate(text, fate_of(told, *target, step.link))?;
            text.push('\n')
        }
        Entry::Task { .. }
        | Entry::Set { .. }
        | Entry::Reset { .. }
        | Entry::Create { .. }
        | Entry::NextState { .. }
        | Entry::Stop
        | Entry::Failed { .. } => push_event(text, &step.entry, step.values, record, system),
    }
}

/// Appends the line of a signal of the script that nobody took.
pub fn push_lost_line(
    text: &mut String,
    lost: &Sending<'_>,
    told: &Timeline,
    system: &System,
) -> Result<(), AllocError>
    ensures { OnOk result (string_bytes text.new ≡ string_bytes text.old
        ++ lost_line system.now told.now (sending_value lost.now)) }
{
    let values = lost.item.values.as_slice();
    push_number(text, lost.at)?;
    push_sent(
        text,
        " env output ",
        lost.item.name,
        values,
        lost.target,
        system,
    )?;
    push_fate(text, lost_fate(told, lost))?;
    text.push('\n')
}

/// Appends the line of the report, with whose it is before it.
fn push_owned(text: &mut String, step: &Step<'_>, system: &System) -> Result<(), AllocError>
    ensures { OnOk result (string_bytes text.new ≡ string_bytes text.old
        ++ line (instance_text system.now step.now.«record».now ++ codes " "
        ++ event_text system.now step.now.«record».now (event_of step.now.entry step.now.values.now))) }
{
    push_instance(text, step.record, system)?;
    text.push(' ')?;
    push_event(text, &step.entry, step.values, step.record, system)
}

/// Appends `#7 Initiator`.
fn push_instance(text: &mut String, record: &Record, system: &System) -> Result<(), AllocError>
    ensures { OnOk result (string_bytes text.new ≡ string_bytes text.old
        ++ instance_text system.now «record».now) }
{
    text.push('#')?;
    push_number(text, record.pid() as u64)?;
    text.push(' ')?;
    text.push_str(process_name(system, record.process()))
}

/// Appends the time of a transition, and whose it is.
fn push_when(text: &mut String, at: u64, record: &Record, system: &System) -> Result<(), AllocError>
    ensures { OnOk result (string_bytes text.new ≡ string_bytes text.old
        ++ when_text system.now «record».now at) }
{
    push_number(text, at)?;
    text.push(' ')?;
    push_instance(text, record, system)
}

/// Appends the line of a signal or a timer that was taken.
fn push_taken(
    text: &mut String,
    at: u64,
    word: &str,
    got: Stimulus,
    step: &Step<'_>,
    system: &System,
) -> Result<(), AllocError>
    ensures { OnOk result (string_bytes text.new ≡ string_bytes text.old
        ++ line (when_text system.now step.now.«record».now at ++ word.now
        ++ stimulus_text system.now step.now.«record».now (got_of got step.now.values.now))) }
{
    push_when(text, at, step.record, system)?;
    text.push_str(word)?;
    push_stimulus(text, got, step.values, step.record, system)
}

/// Appends what is sent, and to whom.
fn push_sent(
    text: &mut String,
    word: &str,
    signal: SignalId,
    values: &[Value],
    target: Target,
    system: &System,
) -> Result<(), AllocError>
    ensures { OnOk result (string_bytes text.new ≡ string_bytes text.old
        ++ word.now ++ signal_text system.now signal values.now ++ codes " to " ++ target_text target) }
{
    text.push_str(word)?;
    push_signal(text, signal, values, system)?;
    text.push_str(" to ")?;
    push_target(text, target)
}

/// Appends ` gone` or ` waits`, or nothing.
fn push_fate(text: &mut String, fate: Option<Fate>) -> Result<(), AllocError>
    ensures { OnOk result (string_bytes text.new ≡ string_bytes text.old ++ fate_text fate) }
{
    match fate {
        None => Ok(()),
        Some(fate) => {
            text.push(' ')?;
            text.push_str(fate.word())
        }
    }
}
