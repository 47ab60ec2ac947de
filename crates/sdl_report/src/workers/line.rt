//! A line of a record.

ghost use Rattle.std.specs.Prelude.{OnErr, OnOk};
ghost use Rattle.sdl_report.specs.Gathered.{Breaks, Grows};
ghost use Rattle.sdl_report.specs.ReportText.{heading_text, line};
ghost use Rattle.sdl_report.specs.Lines.{line_text, line_told};

use crate::page::Page;
use crate::record_text::push_heading;
use crate::report_text::write_event;
use crate::short_names::ShortNames;
use crate::write_whole::WriteFault;
use run_record::{Record, Told};
use sdl_system::System;
use std::io::Write;

/// A line of a record: its heading, or that of an event.
#[derive(Clone, Copy)]
pub enum Line<'a> {
    Heading(&'a Record),
    Event(&'a Record, Told<'a>),
}

/// Writes a line. It may stay on the page. `spare` is for a line that is no common one.
#[inline(always)]
pub fn write_line<W: Write>(
    page: &mut Page,
    spare: &mut String,
    one: Line<'_>,
    names: &ShortNames<'_>,
    writer: &mut W,
) -> Result<(), WriteFault>
    ensures ok { OnOk result (Grows (W.contents writer.old) page.old (W.contents writer.new) page.new
        (line_text names.now (line_told one.entry))) }
    ensures err { OnErr result (Breaks (W.contents writer.old) page.old (W.contents writer.new)
        (line_text names.now (line_told one.entry))) }
{
    match one {
        Line::Heading(record) => write_heading(page, spare, record, names.system(), writer),
        Line::Event(record, told) => {
            write_event(page, spare, &told.entry, told.values, record, names, writer)
        }
    }
}

/// Writes the heading of a record. It may stay on the page.
#[inline(never)]
fn write_heading<W: Write>(
    page: &mut Page,
    spare: &mut String,
    record: &Record,
    system: &System,
    writer: &mut W,
) -> Result<(), WriteFault>
    ensures ok { OnOk result (Grows (W.contents writer.old) page.old (W.contents writer.new) page.new
        (line (heading_text system.now «record».now))) }
    ensures err { OnErr result (Breaks (W.contents writer.old) page.old (W.contents writer.new)
        (line (heading_text system.now «record».now))) }
{
    spare.clear();
    push_heading(spare, record, system)?;
    page.push(spare.as_str(), writer)
}
