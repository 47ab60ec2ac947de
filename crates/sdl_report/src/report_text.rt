//! The text of a report.

ghost use Rattle.std.specs.Prelude.{◌≡◌, ◌≤◌, [], ◌++◌, length, IfErr, OnErr, OnOk};
ghost use Rattle.std.specs.String.{string_bytes};
ghost use Rattle.std.specs.Io.KnownBytes.{Appends};
ghost use Rattle.run_record.specs.Entry.{event_of};
ghost use Rattle.sdl_report.specs.Gathered.{Breaks, BreaksOff, Grows};
ghost use Rattle.sdl_report.specs.ReportText.{end_text, event_line, heading_text, line, record_text, report_text, rest_text};

use crate::event_line::push_event;
use crate::page::Page;
use crate::record_text::push_heading;
use crate::short_names::ShortNames;
use crate::write_whole::{WriteFault, write_text};
use port_model::Value;
use run_record::{Entry, Record, Report};
use sdl_system::System;
use std::alloc::{AllocError, Global};
use std::io::Write;

/// So much text is gathered, in bytes, before it goes out.
pub const PIECE: usize = 8192;

/// Writes a report: for each record, in the order of the list, the line `instance #7 P parent null` and a line for each
/// event, then `end 12 whole` or `end 12 cut`. Each line ends with LF. A number that the system doesn't have has the
/// empty name.
pub fn write_report<W: Write>(
    alloc: Global,
    report: &Report,
    system: &System,
    writer: &mut W,
) -> Result<(), WriteFault>
    ensures ok { OnOk result (Appends (W.contents writer.old) (W.contents writer.new)
        (report_text system.now report.now)) }
    ensures err { OnErr result (BreaksOff (W.contents writer.old) (W.contents writer.new)
        (report_text system.now report.now)) }
{
    write_rest(alloc, report, 0, system, writer)
}

/// Writes the rest of a report, of which so many records are written, as `write_report` does.
pub fn write_rest<W: Write>(
    alloc: Global,
    report: &Report,
    written: usize,
    system: &System,
    writer: &mut W,
) -> Result<(), WriteFault>
    requires { written ≤ length report.now.records.items }
    ensures ok { OnOk result (Appends (W.contents writer.old) (W.contents writer.new)
        (rest_text system.now report.now written)) }
    ensures err { OnErr result (BreaksOff (W.contents writer.old) (W.contents writer.new)
        (rest_text system.now report.now written)) }
{
    let names = ShortNames::of(alloc, system)?;
    let mut page = Page::new(alloc)?;
    let mut spare = String::new(alloc);
    let (_, rest) = report.records.split_at(written);
    for record in rest {
        write_record(&mut page, &mut spare, record, &names, writer)?;
    }
    write_end(&mut page, &mut spare, report, writer)
}

/// Writes the lines of a record. The last of them may stay on the page. `spare` is for lines that are no common ones.
fn write_record<W: Write>(
    page: &mut Page,
    spare: &mut String,
    record: &Record,
    names: &ShortNames<'_>,
    writer: &mut W,
) -> Result<(), WriteFault>
    ensures ok { OnOk result (Grows (W.contents writer.old) page.old
        (W.contents writer.new) page.new (record_text names.now «record».now)) }
    ensures err { OnErr result (Breaks (W.contents writer.old) page.old
        (W.contents writer.new) (record_text names.now «record».now)) }
{
    spare.clear();
    push_heading(spare, record, names.system())?;
    page.push(spare.as_str(), writer)?;
    for told in record.reader() {
        write_event(page, spare, &told.entry, told.values, record, names, writer)?;
    }
    Ok(())
}

/// Writes the line of an event of the record, an entry with its values. It may stay on the page. `spare` is for a line
/// that is no common one.
#[inline(always)]
pub fn write_event<W: Write>(
    page: &mut Page,
    spare: &mut String,
    entry: &Entry,
    values: &[Value],
    record: &Record,
    names: &ShortNames<'_>,
    writer: &mut W,
) -> Result<(), WriteFault>
    ensures ok { OnOk result (Grows (W.contents writer.old) page.old (W.contents writer.new) page.new
        (event_line names.now «record».now (event_of entry.now values.now))) }
    ensures err { OnErr result (Breaks (W.contents writer.old) page.old (W.contents writer.new)
        (event_line names.now «record».now (event_of entry.now values.now))) }
{
    page.make_room(writer)?;
    if page.put_event(entry, values, record, names) {
        return Ok(());
    }
    write_any_event(page, spare, entry, values, record, names.system(), writer)?;
    Ok(())
}

/// The same of a line that is no common one.
#[inline(never)]
fn write_any_event<W: Write>(
    page: &mut Page,
    spare: &mut String,
    entry: &Entry,
    values: &[Value],
    record: &Record,
    system: &System,
    writer: &mut W,
) -> Result<(), WriteFault>
    ensures ok { OnOk result (Grows (W.contents writer.old) page.old (W.contents writer.new) page.new
        (event_line system.now «record».now (event_of entry.now values.now))) }
    ensures err { OnErr result (Breaks (W.contents writer.old) page.old (W.contents writer.new)
        (event_line system.now «record».now (event_of entry.now values.now))) }
{
    spare.clear();
    push_event(spare, entry, values, record, system)?;
    page.push(spare.as_str(), writer)?;
    Ok(())
}

/// Writes the line of the end, and with it all that is on the page.
fn write_end<W: Write>(
    page: &mut Page,
    spare: &mut String,
    report: &Report,
    writer: &mut W,
) -> Result<(), WriteFault>
    ensures ok { OnOk result (Appends (W.contents writer.old) (W.contents writer.new)
        (page.old ++ line (end_text report.now))) }
    ensures err { OnErr result (Breaks (W.contents writer.old) page.old
        (W.contents writer.new) (line (end_text report.now))) }
{
    spare.clear();
    push_end(spare, report)?;
    page.push(spare.as_str(), writer)?;
    page.send(writer)?;
    Ok(())
}

/// Appends the line `end 12 whole` or `end 12 cut`.
pub fn push_end(text: &mut String, report: &Report) -> Result<(), AllocError>
    ensures { OnOk result (string_bytes text.new ≡ string_bytes text.old
        ++ line (end_text report.now)) }
{
    let end = report.end.get();
    if report.whole {
        writeln!(text, "end {end} whole")
    } else {
        writeln!(text, "end {end} cut")
    }
}

/// Hands the gathered text to the writer, and has none then.
pub fn send<W: Write>(text: &mut String, writer: &mut W) -> Result<(), WriteFault>
    ensures empty { OnOk result (string_bytes text.new ≡ []) }
    ensures sent { OnOk result (Appends (W.contents writer.old) (W.contents writer.new)
        (string_bytes text.old)) }
    ensures err { OnErr result (Breaks (W.contents writer.old) (string_bytes text.old)
        (W.contents writer.new) []) }
    ensures fault { IfErr result (λ fault. fault ≡ WriteFault.Write) }
{
    write_text(writer, text.as_bytes())?;
    text.clear();
    Ok(())
}
