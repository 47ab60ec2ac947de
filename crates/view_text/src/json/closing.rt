//! The line of the end.

ghost use Rattle.std.specs.Prelude.{◌≡◌, ◌++◌, [], codes, OnOk};
ghost use Rattle.std.specs.String.{string_bytes};
ghost use Rattle.run_record.specs.Entry.{event_of};
ghost use Rattle.sdl_report.specs.ReportText.{line};
ghost use Rattle.view_text.specs.JsonText.{closing_json, end_json, instance_json, instances_json, last_event, stuck_json, whose_json};
ghost use Rattle.view_text.specs.JsonValue.{key, pid_json, quoted};

use crate::json::pieces::{push_key, push_pid, push_text, push_truth};
use port_model::Pid;
use run_record::{Entry, Record, Report};
use sdl_report::{process_name, push_number, state_name};
use sdl_system::System;
use std::alloc::AllocError;

/// Appends when the run ended, whether it is whole, and its instances.
pub fn push_end(text: &mut String, report: &Report, system: &System) -> Result<(), AllocError>
    ensures { OnOk result (string_bytes text.new ≡ string_bytes text.old ++ line (end_json system.now report.now)) }
{
    text.push_str("{\"end\":")?;
    push_number(text, report.end.get())?;
    push_key(text, "whole")?;
    push_truth(text, report.whole)?;
    push_key(text, "instances")?;
    push_instances(text, &report.records, system)?;
    text.push_str("}\n")
}

/// Appends the line of the instance that is stuck, if one is.
pub fn push_stuck(text: &mut String, stuck: Option<u32>) -> Result<(), AllocError>
    ensures { OnOk result (string_bytes text.new ≡ string_bytes text.old ++ stuck_json stuck) }
{
    match stuck {
        None => Ok(()),
        Some(number) => writeln!(text, "{{\"stuck\":{number}}}"),
    }
}

/// Appends the instances in their order.
fn push_instances(text: &mut String, records: &[Record], system: &System) -> Result<(), AllocError>
    ensures { OnOk result (string_bytes text.new ≡ string_bytes text.old ++ instances_json system.now records.now) }
{
    let Some((first, more)) = records.split_first() else {
        return text.push_str("[]");
    };
    text.push('[')?;
    push_instance(text, first, system)?;
    for record in more {
        push_next(text, record, system)?;
    }
    text.push(']')
}

/// Appends an instance that comes after another one.
fn push_next(text: &mut String, record: &Record, system: &System) -> Result<(), AllocError>
    ensures { OnOk result (string_bytes text.new ≡ string_bytes text.old
        ++ (codes "," ++ instance_json system.now «record».now)) }
{
    text.push(',')?;
    push_instance(text, record, system)
}

/// Appends whose record it is, its creator, and how it closes.
fn push_instance(text: &mut String, record: &Record, system: &System) -> Result<(), AllocError>
    ensures { OnOk result (string_bytes text.new ≡ string_bytes text.old ++ instance_json system.now «record».now) }
{
    push_whose(text, record, system)?;
    push_last(text, record, system)?;
    text.push('}')
}

/// Appends whose record it is, and its creator.
fn push_whose(text: &mut String, record: &Record, system: &System) -> Result<(), AllocError>
    ensures { OnOk result (string_bytes text.new ≡ string_bytes text.old
        ++ codes "{" ++ quoted (codes "instance") ++ codes ":" ++ whose_json system.now «record».now) }
{
    text.push_str("{\"instance\":")?;
    push_number(text, record.pid() as u64)?;
    push_text(text, "process", process_name(system, record.process()))?;
    push_parent(text, record.parent())
}

fn push_parent(text: &mut String, parent: Pid) -> Result<(), AllocError>
    ensures { OnOk result (string_bytes text.new ≡ string_bytes text.old ++ key (codes "parent") ++ pid_json parent) }
{
    push_key(text, "parent")?;
    push_pid(text, parent)
}

/// Appends how a record closes: in a state, or by its end.
fn push_last(text: &mut String, record: &Record, system: &System) -> Result<(), AllocError>
    ensures { OnOk result (string_bytes text.new ≡ string_bytes text.old
        ++ closing_json system.now «record».now (last_event «record».now.events)) }
{
    match record.last() {
        Some(told) => push_closed(text, &told.entry, record, system),
        None => Ok(()),
    }
}

fn push_closed(
    text: &mut String,
    entry: &Entry,
    record: &Record,
    system: &System,
) -> Result<(), AllocError>
    ensures { OnOk result (string_bytes text.new ≡ string_bytes text.old
        ++ closing_json system.now «record».now (Some (event_of entry.now []))) }
{
    match entry {
        Entry::Rest { state } => {
            push_text(text, "rest", state_name(system, record.process(), *state))
        }
        Entry::Cut { state: Some(state) } => {
            push_text(text, "cut", state_name(system, record.process(), *state))
        }
        Entry::Cut { state: None } => push_text(text, "cut", "start"),
        _ => Ok(()),
    }
}
