//! The lines of a timeline.

ghost use Rattle.std.specs.Prelude.{[], map, OnErr, OnOk};
ghost use Rattle.std.specs.List.{AllByRecursion};
ghost use Rattle.std.specs.Io.KnownBytes.{Appends};
ghost use Rattle.sdl_report.specs.Gathered.{BreaksOff};
ghost use Rattle.view_text.specs.LinesText.{lines_text};
ghost use Rattle.view_text.specs.Sending.{sending_value};
ghost use Rattle.view_timeline.specs.Moves.{IsPart};
ghost use Rattle.view_timeline.specs.Timeline.{AreBegun};

use crate::lines::order::push_order;
use crate::lines::script::push_script;
use crate::lines::step_line::{push_lost_line, push_step_line};
use crate::sending::Sending;
use crate::timeline_text::{TimelineText, write_timeline};
use crate::walk::Step;
use run_record::Report;
use sdl_report::{WriteFault, push_end};
use sdl_system::System;
use std::alloc::{AllocError, Global};
use std::io::Write;
use view_timeline::Timeline;

/// Writes a timeline of a report: a line for each event in its order, and in its place one for each signal of the
/// script that is lost, `end 12 whole` or `end 12 cut`, `script: 3 signals, 1 taken` if not all `sent` signals of the
/// script were taken, and `order: not known from #7 on` if instance 7 is stuck in it. Each line ends with LF.
pub fn write_lines<W: Write>(
    alloc: Global,
    report: &Report,
    told: &Timeline,
    stuck: Option<u32>,
    sent: usize,
    lost: &[Sending<'_>],
    system: &System,
    writer: &mut W,
) -> Result<(), WriteFault>
    requires parts { AllByRecursion (IsPart report.now.records.items) told.now.moves.items }
    requires begun { AreBegun report.now.records.items told.now }
    ensures ok { OnOk result (Appends (W.contents writer.old) (W.contents writer.new)
        (lines_text system.now report.now told.now stuck sent (map sending_value lost.now))) }
    ensures err { OnErr result (BreaksOff (W.contents writer.old) (W.contents writer.new)
        (lines_text system.now report.now told.now stuck sent (map sending_value lost.now))) }
{
    let lines = Lines {
        report,
        told,
        stuck,
        sent,
        system,
    };
    write_timeline(alloc, report, told, lost, &lines, writer)
}

/// A timeline of a report as lines: the instance that is stuck in it, and how many signals of its script were sent.
#[derive(Clone, Copy)]
struct Lines<'t> {
    report: &'t Report,
    told: &'t Timeline,
    stuck: Option<u32>,
    sent: usize,
    system: &'t System,
}

impl TimelineText for Lines<'_> {
    ghost use Rattle.std.specs.Prelude.{◌++◌};
    ghost use Rattle.sdl_report.specs.ReportText.{end_text};
    ghost use Rattle.view_text.specs.LinesText.{closing_text, heard, lost_line, order_text, script_text, step_line};
    ghost use Rattle.view_text.specs.Written.{line-some};

    ghost heading_text = { λ lines. [] };

    ghost step_text = { λ lines. step_line lines.system.now lines.told.now };

    ghost lost_text = { λ lines. lost_line lines.system.now lines.told.now };

    ghost closing_text = { λ lines. closing_text lines.report.now lines.stuck lines.sent };

    fn push_heading(&self, _text: &mut String) -> Result<(), AllocError> {
        Ok(())
    }

    /// Appends the line of an event.
    fn push_step(&self, text: &mut String, step: &Step<'_>) -> Result<(), AllocError> {
        push_step_line(text, step, self.told, self.system)
    }

    /// Appends the line of a lost signal.
    fn push_lost(&self, text: &mut String, lost: &Sending<'_>) -> Result<(), AllocError> {
        push_lost_line(text, lost, self.told, self.system)
    }

    /// Appends the end of the run, what of the script was heard, and where the order ends.
    fn push_closing(&self, text: &mut String) -> Result<(), AllocError> {
        push_end(text, self.report)?;
        push_script(text, self.report, self.sent)?;
        push_order(text, self.stuck)
    }

    ghost ends = { λ lines. line-some (end_text lines.report.now)
        (script_text lines.sent (heard lines.report.now.records.items) ++ order_text lines.stuck) };
}
