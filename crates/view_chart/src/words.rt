//! Labels, and what is told in words.

ghost use Rattle.std.specs.Prelude.{◌≡◌, ◌++◌, OnOk};
ghost use Rattle.std.specs.String.{string_bytes};
ghost use Rattle.view_chart.specs.Words.{instance_words, number_words, target_words};

use crate::chart::Tip;
use crate::passage::Passage;
use port_model::{SignalId, Value};
use run_record::{Record, Report};
use sdl_report::{process_name, push_event, push_signal, record_of};
use sdl_system::{System, Target};
use std::alloc::{AllocError, Global};

/// A label has at most so many bytes; what is longer is cut, and is whole in the title.
const LONGEST: usize = 40;

/// A signal or a timer with its values, as a label.
pub fn signal_label(
    alloc: Global,
    system: &System,
    signal: SignalId,
    values: &[Value],
) -> Result<String, AllocError> {
    let mut text = String::new(alloc);
    push_signal(&mut text, signal, values, system)?;
    clipped(alloc, text.as_str())
}

/// The beginning of a text, with two dots if something is left out. Names are ASCII.
pub fn clipped(alloc: Global, text: &str) -> Result<String, AllocError> {
    let mut label = String::new(alloc);
    if text.len() <= LONGEST {
        label.push_str(text)?;
        return Ok(label);
    }
    let mut left = LONGEST;
    for letter in text.chars() {
        if left == 0 {
            break;
        }
        left -= 1;
        label.push(letter)?;
    }
    label.push_str("..")?;
    Ok(label)
}

/// Appends an instance: `Initiator #1`.
pub fn push_instance(text: &mut String, system: &System, record: &Record) -> Result<(), AllocError>
    ensures { OnOk result (string_bytes text.new ≡ string_bytes text.old ++ instance_words system.now «record».now) }
{
    let number = record.pid();
    text.push_str(process_name(system, record.process()))?;
    write!(text, " #{number}")
}

/// The lines of a move in the trace, below the name of the instance. A part with which a transition goes on says so.
pub fn lines_of(
    alloc: Global,
    system: &System,
    passage: &Passage<'_>,
) -> Result<String, AllocError> {
    let record = passage.record;
    let mut text = String::new(alloc);
    push_instance(&mut text, system, record)?;
    if passage.goes_on() {
        text.push_str("\ngoes on")?;
    }
    for told in passage.events() {
        text.push('\n')?;
        push_event(&mut text, &told.entry, told.values, record, system)?;
        let _ = text.pop();
    }
    Ok(text)
}

/// Appends whom an output reached, in words.
pub fn push_target(
    text: &mut String,
    system: &System,
    report: &Report,
    target: Target,
) -> Result<(), AllocError>
    ensures { OnOk result (string_bytes text.new ≡ string_bytes text.old
        ++ target_words system.now report.now.records.items target) }
{
    match target {
        Target::Instance(number) => push_number_of(text, system, report, number),
        Target::Env => text.push_str("env"),
        Target::Null => text.push_str("null"),
        Target::Nobody => text.push_str("nobody"),
    }
}

/// Appends the instance of this number.
pub fn push_number_of(
    text: &mut String,
    system: &System,
    report: &Report,
    number: u32,
) -> Result<(), AllocError>
    ensures { OnOk result (string_bytes text.new ≡ string_bytes text.old
        ++ number_words system.now report.now.records.items number) }
{
    match record_of(&report.records, number) {
        Some(record) => push_instance(text, system, record),
        None => write!(text, "#{number}"),
    }
}

/// The label of an output, with a remark, and with the receiver's number if it has no column.
pub fn label_with(
    alloc: Global,
    signal: &str,
    remark: &str,
    target: Target,
    tip: Tip,
) -> Result<String, AllocError> {
    let mut label = String::new(alloc);
    label.push_str(signal)?;
    if let Target::Instance(number) = target
        && let Tip::Gone(None) | Tip::Waits(None) | Tip::Later(None) = tip
    {
        write!(label, " to #{number}")?;
    }
    label.push_str(remark)?;
    Ok(label)
}
