//! A text of a timeline, which goes out event by event.

ghost use Rattle.std.specs.Prelude.{◌≡◌, ◌<◌, ◌++◌, length, map, OnErr, OnOk};
ghost use Rattle.std.specs.List.{AllByRecursion, flat_map};
ghost use Rattle.std.specs.String.{string_bytes};
ghost use Rattle.std.specs.Io.KnownBytes.{Appends};
ghost use Rattle.sdl_report.specs.Gathered.{BreaksOff, Grows};
ghost use Rattle.view_text.specs.Occurrence.{occurrence_value};
ghost use Rattle.view_text.specs.Occurrences.{occurrence_text};
ghost use Rattle.view_text.specs.Sending.{sending_value};
ghost use Rattle.view_text.specs.Step.{step_value};
ghost use Rattle.view_text.specs.Written.{BreaksBefore, whole_text};
ghost use Rattle.view_timeline.specs.Moves.{IsPart};
ghost use Rattle.view_timeline.specs.Timeline.{AreBegun};

use crate::occurrences::{Occurrence, Occurrences};
use crate::sending::Sending;
use crate::walk::Step;
use run_record::Report;
use sdl_report::{PIECE, WriteFault, send};
use std::alloc::{AllocError, Global};
use std::io::Write;
use view_timeline::Timeline;

/// A text of a timeline: its heading, what each event and each lost signal of the script adds to it, and its end.
pub trait TimelineText {
    ghost use Rattle.std.specs.Prelude.{ℕ, List};
    ghost use Rattle.view_text.specs.Sending.{SendingValue};
    ghost use Rattle.view_text.specs.Walk.{StepValue};

    ghost heading_text: { Self → List ℕ };

    /// What an event adds, whatever came before it.
    ghost step_text: { Self → StepValue → List ℕ };

    /// What a lost signal adds, whatever came before it.
    ghost lost_text: { Self → SendingValue → List ℕ };

    ghost closing_text: { Self → List ℕ };

    /// Appends what comes before the first event.
    fn push_heading(&self, text: &mut String) -> Result<(), AllocError>
        ensures { OnOk result (string_bytes text.new ≡ string_bytes text.old ++ heading_text self.now) };

    /// Appends what an event adds.
    fn push_step(&self, text: &mut String, step: &Step<'_>) -> Result<(), AllocError>
        ensures { OnOk result (string_bytes text.new ≡ string_bytes text.old
            ++ step_text self.now (step_value step.now)) };

    /// Appends what a lost signal adds.
    fn push_lost(&self, text: &mut String, lost: &Sending<'_>) -> Result<(), AllocError>
        ensures { OnOk result (string_bytes text.new ≡ string_bytes text.old
            ++ lost_text self.now (sending_value lost.now)) };

    /// Appends what comes after the last event.
    fn push_closing(&self, text: &mut String) -> Result<(), AllocError>
        ensures { OnOk result (string_bytes text.new ≡ string_bytes text.old ++ closing_text self.now) };

    /// It has an end. So a text that breaks off in an event isn't whole.
    ghost ends: { (view : Self) → 0 < length (closing_text view) };
}

/// Writes this text of a timeline of the report, in which these signals of the script are lost.
pub fn write_timeline<T: TimelineText, W: Write>(
    alloc: Global,
    report: &Report,
    told: &Timeline,
    lost: &[Sending<'_>],
    view: &T,
    writer: &mut W,
) -> Result<(), WriteFault>
    requires parts { AllByRecursion (IsPart report.now.records.items) told.now.moves.items }
    requires begun { AreBegun report.now.records.items told.now }
    ensures ok { OnOk result (Appends (W.contents writer.old) (W.contents writer.new)
        (whole_text (T.heading_text view.now) (T.step_text view.now) (T.lost_text view.now)
        (T.closing_text view.now) report.now.records.items told.now (map sending_value lost.now))) }
    ensures err { OnErr result (BreaksOff (W.contents writer.old) (W.contents writer.new)
        (whole_text (T.heading_text view.now) (T.step_text view.now) (T.lost_text view.now)
        (T.closing_text view.now) report.now.records.items told.now (map sending_value lost.now))) }
{
    let mut text = String::new(alloc);
    view.push_heading(&mut text)?;
    let all = Occurrences::new(alloc, report, told, lost)?;
    write_all(&mut text, all, view, writer)?;
    view.push_closing(&mut text)?;
    send(&mut text, writer)
}

/// Writes what each of them adds. The last of that may stay in the gathered text.
fn write_all<T: TimelineText, W: Write>(
    text: &mut String,
    all: Occurrences<'_>,
    view: &T,
    writer: &mut W,
) -> Result<(), WriteFault>
    ensures ok { OnOk result (Grows (W.contents writer.old) (string_bytes text.old)
        (W.contents writer.new) (string_bytes text.new)
        (flat_map (occurrence_text (T.step_text view.now) (T.lost_text view.now)) all.entry)) }
    ensures err { OnErr result (BreaksBefore (W.contents writer.old) (string_bytes text.old) (W.contents writer.new)
        (flat_map (occurrence_text (T.step_text view.now) (T.lost_text view.now)) all.entry)) }
{
    let mut left = all;
    while let Some(next) = left.next() {
        write_one(text, &next, view, writer)?;
    }
    Ok(())
}

/// Appends what one adds to the gathered text, which goes out if it is a piece.
fn write_one<T: TimelineText, W: Write>(
    text: &mut String,
    next: &Occurrence<'_>,
    view: &T,
    writer: &mut W,
) -> Result<(), WriteFault>
    ensures ok { OnOk result (Grows (W.contents writer.old) (string_bytes text.old)
        (W.contents writer.new) (string_bytes text.new)
        (occurrence_text (T.step_text view.now) (T.lost_text view.now) (occurrence_value next.now))) }
    ensures err { OnErr result (BreaksBefore (W.contents writer.old) (string_bytes text.old) (W.contents writer.new)
        (occurrence_text (T.step_text view.now) (T.lost_text view.now) (occurrence_value next.now))) }
{
    push_one(text, next, view)?;
    if text.len() >= PIECE {
        send(text, writer)?;
    }
    Ok(())
}

/// Appends what one adds.
fn push_one<T: TimelineText>(
    text: &mut String,
    next: &Occurrence<'_>,
    view: &T,
) -> Result<(), AllocError>
    ensures { OnOk result (string_bytes text.new ≡ string_bytes text.old
        ++ occurrence_text (T.step_text view.now) (T.lost_text view.now) (occurrence_value next.now)) }
{
    match next {
        Occurrence::Done(step) => view.push_step(text, step),
        Occurrence::Lost(lost) => view.push_lost(text, lost),
    }
}
