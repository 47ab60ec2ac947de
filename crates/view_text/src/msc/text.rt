//! The text of a timeline in Z.120.

ghost use Rattle.std.specs.Prelude.{◌≡◌, ◌++◌, map, OnErr, OnOk};
ghost use Rattle.std.specs.List.{AllByRecursion};
ghost use Rattle.std.specs.Io.KnownBytes.{Appends};
ghost use Rattle.std.specs.String.{string_bytes};
ghost use Rattle.sdl_report.specs.Gathered.{BreaksOff};
ghost use Rattle.sdl_report.specs.ReportText.{end_text};
ghost use Rattle.view_text.specs.MscText.{declared_text, instances_text, line_begin, msc_text, next_text, order_text};
ghost use Rattle.view_text.specs.Sending.{sending_value};
ghost use Rattle.view_text.specs.Step.{step_value};
ghost use Rattle.view_timeline.specs.Moves.{IsPart};
ghost use Rattle.view_timeline.specs.Timeline.{AreBegun};

use crate::msc::event_text::push_event_text;
use crate::msc::lost_text::push_lost_text;
use crate::msc::names::{Cast, push_instance_name, push_word};
use crate::sending::Sending;
use crate::timeline_text::{TimelineText, write_timeline};
use crate::walk::Step;
use run_record::{Record, Report};
use sdl_report::{WriteFault, process_name};
use sdl_system::System;
use std::alloc::{AllocError, Global};
use std::io::Write;
use view_timeline::Timeline;

/// Writes a timeline of a report as text of Z.120, in its event-oriented form: the chart has this name, then come the
/// instances, a line for each move, which may be a part of a transition, and for each lost signal of the script, and the
/// end, which says if an instance is stuck.
/// A name that is a keyword of Z.120 has a `_` after it.
pub fn write_msc<W: Write>(
    alloc: Global,
    name: &str,
    system: &System,
    told: &Timeline,
    stuck: Option<u32>,
    lost: &[Sending<'_>],
    report: &Report,
    writer: &mut W,
) -> Result<(), WriteFault>
    requires parts { AllByRecursion (IsPart report.now.records.items) told.now.moves.items }
    requires begun { AreBegun report.now.records.items told.now }
    ensures ok { OnOk result (Appends (W.contents writer.old) (W.contents writer.new)
        (msc_text name.now system.now told.now stuck (map sending_value lost.now) report.now)) }
    ensures err { OnErr result (BreaksOff (W.contents writer.old) (W.contents writer.new)
        (msc_text name.now system.now told.now stuck (map sending_value lost.now) report.now)) }
{
    let msc = Msc {
        name,
        stuck,
        cast: Cast {
            system,
            report,
            told,
        },
    };
    write_timeline(alloc, report, told, lost, &msc, writer)
}

/// A timeline as text of Z.120, with the name of its chart, and the instance that is stuck.
#[derive(Clone, Copy)]
struct Msc<'t> {
    name: &'t str,
    stuck: Option<u32>,
    cast: Cast<'t>,
}

impl TimelineText for Msc<'_> {
    ghost use Rattle.std.proofs.Common.{zero-lt-suc};
    ghost use Rattle.view_text.specs.MscText.{heading_text, last_text, step_text};
    ghost use Rattle.view_text.specs.LostText.{lost_text};

    ghost heading_text = { λ msc. heading_text msc.name.now msc.cast.system.now msc.cast.report.now.records.items };

    ghost step_text = { λ msc. step_text msc.cast.system.now msc.cast.report.now.records.items msc.cast.told.now };

    ghost lost_text = { λ msc. lost_text msc.cast.system.now msc.cast.report.now.records.items msc.cast.told.now };

    ghost closing_text = { λ msc. last_text msc.cast.report.now msc.stuck };

    /// Appends the name of the chart, and the instances.
    fn push_heading(&self, text: &mut String) -> Result<(), AllocError> {
        text.push_str("msc ")?;
        push_word(text, self.name)?;
        text.push(';')?;
        push_instances(text, &self.cast.report.records, self.cast.system)
    }

    /// Appends an event, on a line of its own if it's the first one of a move.
    fn push_step(&self, text: &mut String, step: &Step<'_>) -> Result<(), AllocError> {
        push_line_begin(text, step, self.cast.system)?;
        text.push(' ')?;
        push_event_text(
            text,
            &step.entry,
            step.values,
            step.link,
            step.record,
            &self.cast,
        )?;
        text.push(';')
    }

    /// Appends a lost signal, on a line of its own.
    fn push_lost(&self, text: &mut String, lost: &Sending<'_>) -> Result<(), AllocError> {
        push_lost_text(text, lost, &self.cast)
    }

    /// Appends the end of the chart, with a comment: the end of the run, and where the order ends.
    fn push_closing(&self, text: &mut String) -> Result<(), AllocError> {
        text.push_str("\nendmsc; /* ")?;
        push_end_text(text, self.cast.report)?;
        push_order(text, self.stuck)?;
        text.push_str(" */")?;
        text.push_str("\n")
    }

    ghost ends = { λ msc. zero-lt-suc _ };
}

/// Appends all instances, if there are any.
fn push_instances(text: &mut String, records: &[Record], system: &System) -> Result<(), AllocError>
    ensures { OnOk result (string_bytes text.new ≡ string_bytes text.old
        ++ instances_text system.now records.now) }
{
    let Some((first, more)) = records.split_first() else {
        return Ok(());
    };
    text.push_str("\ninst ")?;
    push_declared(text, first, system)?;
    for record in more {
        push_next(text, record, system)?;
    }
    text.push(';')
}

/// Appends an instance in the heading, after others.
fn push_next(text: &mut String, record: &Record, system: &System) -> Result<(), AllocError>
    ensures { OnOk result (string_bytes text.new ≡ string_bytes text.old
        ++ next_text system.now «record».now) }
{
    text.push_str(", ")?;
    push_declared(text, record, system)
}

/// Appends an instance in the heading: `Initiator_1: process Initiator`.
fn push_declared(text: &mut String, record: &Record, system: &System) -> Result<(), AllocError>
    ensures { OnOk result (string_bytes text.new ≡ string_bytes text.old
        ++ declared_text system.now «record».now) }
{
    push_instance_name(text, system, record.process(), record.pid())?;
    text.push_str(": process ")?;
    push_word(text, process_name(system, record.process()))
}

/// Begins the line of a move with whose it is, if the event is the first one of a move.
fn push_line_begin(text: &mut String, step: &Step<'_>, system: &System) -> Result<(), AllocError>
    ensures { OnOk result (string_bytes text.new ≡ string_bytes text.old
        ++ line_begin system.now (step_value step.now)) }
{
    if step.place != 0 {
        return Ok(());
    }
    let record = step.record;
    text.push('\n')?;
    push_instance_name(text, system, record.process(), record.pid())?;
    text.push(':')
}

/// Appends where the order ends, if an instance is stuck.
fn push_order(text: &mut String, stuck: Option<u32>) -> Result<(), AllocError>
    ensures { OnOk result (string_bytes text.new ≡ string_bytes text.old ++ order_text stuck) }
{
    match stuck {
        None => Ok(()),
        Some(number) => write!(text, "; order not known from #{number} on"),
    }
}

/// Appends when the run ends, and how.
fn push_end_text(text: &mut String, report: &Report) -> Result<(), AllocError>
    ensures { OnOk result (string_bytes text.new ≡ string_bytes text.old ++ end_text report.now) }
{
    let end = report.end.get();
    if report.whole {
        write!(text, "end {end} whole")
    } else {
        write!(text, "end {end} cut")
    }
}
