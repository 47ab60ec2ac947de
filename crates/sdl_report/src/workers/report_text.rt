//! Writing a report whose text several threads make.

ghost use Rattle.std.specs.Prelude.{◌≡◌, ◌++◌, [], ◌<◌, All, length, IfOk, OnErr, OnOk, vec_len};
ghost use Rattle.std.specs.Io.KnownBytes.{Appends};
ghost use Rattle.sdl_report.specs.Gathered.{BreaksOff};
ghost use Rattle.sdl_report.specs.ReportText.{end_text, line, report_text};
ghost use Rattle.sdl_report.specs.Lines.{all_lines, lines_text};
ghost use Rattle.sdl_report.specs.Pieces.{IsMade, joined, pieces_text};

use crate::page::Page;
use crate::report_text::{push_end, write_report};
use crate::short_names::ShortNames;
use crate::workers::lines::Lines;
use crate::workers::piece::Piece;
use crate::workers::shares::{Shares, count_of_lines, shares_of};
use crate::write_whole::{WriteFault, write_text};
use run_record::Report;
use sdl_system::System;
use std::alloc::{AllocError, Global};
use std::io::Write;
use std::thread;
use std::thread::Threads;

/// Writes a report, as `write_report` does. At most `workers` threads make its text, the calling one among them; with
/// one worker, or of a short report, the calling one alone.
///
/// The text isn't held whole: each thread makes the text of up to 65,536 lines, and then these texts go out. So each
/// worker takes at most twice the bytes of so many lines, and a page of 33 KB, whatever the length of the report. Where
/// there is no memory for one of these texts, its lines go out one after the other, as those of a serial run do.
pub fn write_report_by_workers<T: Threads + Sync, W: Write>(
    rt: &T,
    alloc: Global,
    workers: usize,
    report: &Report,
    system: &System,
    writer: &mut W,
) -> Result<(), WriteFault>
    ensures ok { OnOk result (Appends (W.contents writer.old) (W.contents writer.new)
        (report_text system.now report.now)) }
    ensures err { OnErr result (BreaksOff (W.contents writer.old) (W.contents writer.new)
        (report_text system.now report.now)) }
{
    let records = report.records.as_slice();
    let Some(shares) = shares_of(workers, count_of_lines(records)) else {
        return write_report(alloc, report, system, writer);
    };
    let Some((first, rest)) = records.split_first() else {
        return write_report(alloc, report, system, writer);
    };
    let lines = Lines::of(first, rest);
    write_shared(rt, alloc, &shares, lines, report, system, writer)
}

/// Writes a report, of which these are the lines, in shares of several threads.
fn write_shared<T: Threads + Sync, W: Write>(
    rt: &T,
    alloc: Global,
    shares: &Shares,
    lines: Lines<'_>,
    report: &Report,
    system: &System,
    writer: &mut W,
) -> Result<(), WriteFault>
    requires threads { 0 < shares.now.threads }
    requires share { 0 < shares.now.lines }
    requires lines { lines ≡ all_lines report.now.records.items }
    ensures ok { OnOk result (Appends (W.contents writer.old) (W.contents writer.new)
        (report_text system.now report.now)) }
    ensures err { OnErr result (BreaksOff (W.contents writer.old) (W.contents writer.new)
        (report_text system.now report.now)) }
{
    let names = ShortNames::of(alloc, system)?;
    let Ok(mut pieces) = pieces_of(alloc, shares.threads, &lines) else {
        return write_report(alloc, report, system, writer);
    };
    let slice = pieces.as_mut_slice();
    write_pieces(
        rt,
        alloc,
        slice,
        shares.lines,
        lines,
        &names,
        report,
        writer,
    )
}

/// So many pieces, each without lines of its own.
fn pieces_of<'a>(
    alloc: Global,
    count: usize,
    lines: &Lines<'a>,
) -> Result<Vec<Piece<'a>>, AllocError>
    ensures { IfOk result (λ pieces. vec_len pieces ≡ count) }
{
    let mut pieces = Vec::with_capacity(alloc, count)?;
    for _piece in 0..count {
        let mut none = lines.again();
        pieces.push(Piece::new(alloc, none.take_first(0)))?;
    }
    Ok(pieces)
}

/// Writes the lines in pieces of so many lines each, and then the end of the report. In each round every piece has its
/// text made by a thread of its own.
fn write_pieces<'a, T: Threads + Sync, W: Write>(
    rt: &T,
    alloc: Global,
    pieces: &mut [Piece<'a>],
    share: usize,
    lines: Lines<'a>,
    names: &ShortNames<'_>,
    report: &Report,
    writer: &mut W,
) -> Result<(), WriteFault>
    requires pieces { 0 < length pieces.old }
    requires share { 0 < share }
    ensures ok { OnOk result (Appends (W.contents writer.old) (W.contents writer.new)
        (lines_text names.now lines.entry ++ line (end_text report.now))) }
    ensures err { OnErr result (BreaksOff (W.contents writer.old) (W.contents writer.new)
        (lines_text names.now lines.entry ++ line (end_text report.now))) }
{
    let mut page = Page::new(alloc)?;
    let mut spare = String::new(alloc);
    let mut left = lines;
    'rounds: while !left.is_done() {
        cut(pieces, &mut left, share);
        make_texts(rt, alloc, pieces, names);
        write_texts(pieces, &mut page, &mut spare, names, writer)?;
    }
    write_end(&mut spare, report, writer)
}

/// Cuts the next lines into pieces: so many lines for each, or fewer where the lines end.
fn cut<'a>(pieces: &mut [Piece<'a>], left: &mut Lines<'a>, share: usize)
    requires pieces { 0 < length pieces.old }
    requires share { 0 < share }
    ensures cut { joined pieces.new ++ left.new ≡ left.old }
    ensures fewer { 0 < length left.old → length left.new < length left.old }
{
    for piece in pieces.iter_mut() {
        piece.lines = left.take_first(share);
    }
}

/// Makes the text of each piece, in a thread of its own.
fn make_texts<T: Threads + Sync>(
    rt: &T,
    alloc: Global,
    pieces: &mut [Piece<'_>],
    names: &ShortNames<'_>,
)
    requires { 0 < length pieces.old }
    ensures lines { joined pieces.new ≡ joined pieces.old }
    ensures made { All (IsMade names.now) pieces.new }
{
    let threads = pieces.len();
    thread::for_each_mut(
        rt,
        pieces,
        threads,
        &|_, piece: &mut Piece<'_>|
            ensures lines { piece.new.lines ≡ piece.old.lines }
            ensures made { IsMade names.entry.now piece.new }
        { piece.make(alloc, names) },
    );
}

/// Writes the texts of the pieces. The page is for what isn't made, and is empty again then.
fn write_texts<W: Write>(
    pieces: &[Piece<'_>],
    page: &mut Page,
    spare: &mut String,
    names: &ShortNames<'_>,
    writer: &mut W,
) -> Result<(), WriteFault>
    requires made { All (IsMade names.now) pieces.now }
    requires page { page.old ≡ [] }
    ensures empty { OnOk result (page.new ≡ []) }
    ensures ok { OnOk result (Appends (W.contents writer.old) (W.contents writer.new)
        (pieces_text names.now pieces.now)) }
    ensures err { OnErr result (BreaksOff (W.contents writer.old) (W.contents writer.new)
        (pieces_text names.now pieces.now)) }
{
    for piece in pieces {
        piece.write(page, spare, names, writer)?;
    }
    Ok(())
}

/// Writes the line of the end.
fn write_end<W: Write>(
    spare: &mut String,
    report: &Report,
    writer: &mut W,
) -> Result<(), WriteFault>
    ensures ok { OnOk result (Appends (W.contents writer.old) (W.contents writer.new)
        (line (end_text report.now))) }
    ensures err { OnErr result (BreaksOff (W.contents writer.old) (W.contents writer.new)
        (line (end_text report.now))) }
{
    spare.clear();
    push_end(spare, report)?;
    write_text(writer, spare.as_bytes())
}
