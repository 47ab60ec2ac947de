//! The lines of a timeline as JSON.

ghost use Rattle.std.specs.Prelude.{◌≡◌, [], ◌++◌, map, OnErr, OnOk};
ghost use Rattle.std.specs.List.{AllByRecursion};
ghost use Rattle.std.specs.String.{string_bytes};
ghost use Rattle.std.specs.Io.KnownBytes.{Appends};
ghost use Rattle.port_model.specs.Value.{ValueList};
ghost use Rattle.run_record.specs.Entry.{event_of};
ghost use Rattle.sdl_report.specs.Gathered.{BreaksOff};
ghost use Rattle.view_text.specs.JsonText.{after_json, is_closing, json_text, part_json};
ghost use Rattle.view_text.specs.Sending.{sending_value};
ghost use Rattle.view_text.specs.Step.{step_value};
ghost use Rattle.view_timeline.specs.Moves.{IsPart};
ghost use Rattle.view_timeline.specs.Timeline.{AreBegun};

use crate::json::closing::{push_end, push_stuck};
use crate::json::deed::push_deed;
use crate::json::lost::push_lost;
use crate::json::opening::{push_does, push_going, push_opening};
use crate::sending::Sending;
use crate::timeline_text::{TimelineText, write_timeline};
use crate::walk::Step;
use run_record::{Entry, Report};
use sdl_report::WriteFault;
use sdl_system::System;
use std::alloc::{AllocError, Global};
use std::io::Write;
use view_timeline::{Timeline, begins};

/// Writes a timeline of a report as JSON Lines: a line for each transition or part of one in its order, and in its place
/// one for each signal of the script that is lost, one for the end, and one more if an instance is stuck in it.
pub fn write_json<W: Write>(
    alloc: Global,
    report: &Report,
    told: &Timeline,
    stuck: Option<u32>,
    lost: &[Sending<'_>],
    system: &System,
    writer: &mut W,
) -> Result<(), WriteFault>
    requires parts { AllByRecursion (IsPart report.now.records.items) told.now.moves.items }
    requires begun { AreBegun report.now.records.items told.now }
    ensures ok { OnOk result (Appends (W.contents writer.old) (W.contents writer.new)
        (json_text system.now report.now told.now stuck (map sending_value lost.now))) }
    ensures err { OnErr result (BreaksOff (W.contents writer.old) (W.contents writer.new)
        (json_text system.now report.now told.now stuck (map sending_value lost.now))) }
{
    let json = Json {
        report,
        told,
        stuck,
        system,
    };
    write_timeline(alloc, report, told, lost, &json, writer)
}

/// A timeline of a report as JSON, and the instance that is stuck in it.
#[derive(Clone, Copy)]
struct Json<'t> {
    report: &'t Report,
    told: &'t Timeline,
    stuck: Option<u32>,
    system: &'t System,
}

impl TimelineText for Json<'_> {
    ghost use Rattle.std.specs.Prelude.{◌++◌};
    ghost use Rattle.sdl_report.specs.ReportText.{line};
    ghost use Rattle.view_text.specs.JsonText.{end_json, lost_json, step_json, stuck_json};
    ghost use Rattle.view_text.specs.Written.{line-some};

    ghost heading_text = { λ json. [] };

    ghost step_text = { λ json. step_json json.system.now json.told.now };

    ghost lost_text = { λ json. lost_json json.system.now json.told.now };

    ghost closing_text = { λ json. line (end_json json.system.now json.report.now)
        ++ stuck_json json.stuck };

    fn push_heading(&self, _text: &mut String) -> Result<(), AllocError> {
        Ok(())
    }

    /// Appends what an event adds to the object of its transition, and ends the line if what is told of it ends.
    fn push_step(&self, text: &mut String, step: &Step<'_>) -> Result<(), AllocError> {
        if is_closing(&step.entry) {
            return Ok(());
        }
        push_part(text, step, self.told, self.system)?;
        push_after(text, step.closes, begins(&step.entry))
    }

    /// Appends the line of a lost signal.
    fn push_lost(&self, text: &mut String, lost: &Sending<'_>) -> Result<(), AllocError> {
        push_lost(text, lost, self.told, self.system)
    }

    /// Appends the line of the end, and where the order ends.
    fn push_closing(&self, text: &mut String) -> Result<(), AllocError> {
        push_end(text, self.report, self.system)?;
        push_stuck(text, self.stuck)
    }

    ghost ends = { λ json. line-some (end_json json.system.now json.report.now) (stuck_json json.stuck) };
}

/// Whether a record closes with the entry.
fn is_closing(entry: &Entry) -> bool
    ensures { (values : ValueList) → result ≡ is_closing (event_of entry.now values) }
{
    match entry {
        Entry::Rest { .. } | Entry::Cut { .. } => true,
        _ => false,
    }
}

/// Appends how the object opens, and what the transition does.
fn push_part(
    text: &mut String,
    step: &Step<'_>,
    told: &Timeline,
    system: &System,
) -> Result<(), AllocError>
    ensures { OnOk result (string_bytes text.new ≡ string_bytes text.old
        ++ part_json system.now told.now (step_value step.now)) }
{
    if begins(&step.entry) {
        push_opening(text, step, system)?;
        return push_does(text);
    }
    push_going(text, step.goes_on(), step.record, system)?;
    push_deed(text, step, told, system)
}

/// Appends what follows an event: the end of the line, or a comma before what is done next.
fn push_after(text: &mut String, closes: bool, opens: bool) -> Result<(), AllocError>
    ensures { OnOk result (string_bytes text.new ≡ string_bytes text.old ++ after_json closes opens) }
{
    if closes {
        return text.push_str("]}\n");
    }
    if opens {
        return Ok(());
    }
    text.push(',')
}
