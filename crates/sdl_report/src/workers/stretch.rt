//! Some lines that follow each other.

ghost use Rattle.std.specs.Prelude.{◌≡◌, [], take, OnErr, OnOk};
ghost use Rattle.std.specs.Io.KnownBytes.{Appends};
ghost use Rattle.sdl_report.specs.Gathered.{BreaksOff};
ghost use Rattle.sdl_report.specs.Lines.{lines_text};

use crate::page::Page;
use crate::short_names::ShortNames;
use crate::workers::line::{Line, write_line};
use crate::workers::lines::Lines;
use crate::write_whole::WriteFault;
use std::io::Write;
use std::marker::Model;

/// The first of some lines.
#[derive(Drop)]
pub struct Stretch<'a> {
    lines: Lines<'a>,
    // not more than so many of them
    most: usize,
}

impl<'a> Model for Stretch<'a> {
    ghost use Rattle.std.specs.Prelude.{List, take};
    ghost use Rattle.sdl_report.specs.Lines.{LineValue};

    ghost Value = { List LineValue };

    ghost view = { λ s. take s.most s.lines };
}

impl<'a> Stretch<'a> {
    /// The first of these lines: so many, or all if there are fewer.
    pub fn new(lines: Lines<'a>, most: usize) -> Stretch<'a>
        ensures { result ≡ take most lines.entry }
    {
        Stretch { lines, most }
    }

    /// The same lines once more.
    pub fn again(&self) -> Stretch<'a>
        ensures { result ≡ self.now }
    {
        Stretch {
            lines: self.lines.again(),
            most: self.most,
        }
    }
}

impl<'a> Iterator for Stretch<'a> {
    ghost use Rattle.std.specs.Iterator.{YieldsFirstBy, item_count};
    ghost use Rattle.sdl_report.specs.Lines.{line_told};

    type Item = Line<'a>;

    ghost next_gives = { YieldsFirstBy line_told (λ left. left) };

    ghost remaining = { item_count (λ left. left) };

    #[inline(always)]
    fn next(&mut self) -> Option<Line<'a>> {
        if self.most == 0 {
            return None;
        }
        self.most -= 1;
        self.lines.next()
    }
}

/// Writes lines by way of an empty page, which is empty again then. `spare` is for lines that are no common ones.
pub fn write_lines<W: Write>(
    page: &mut Page,
    spare: &mut String,
    lines: Stretch<'_>,
    names: &ShortNames<'_>,
    writer: &mut W,
) -> Result<(), WriteFault>
    requires { page.old ≡ [] }
    ensures empty { OnOk result (page.new ≡ []) }
    ensures ok { OnOk result (Appends (W.contents writer.old) (W.contents writer.new)
        (lines_text names.now lines.entry)) }
    ensures err { OnErr result (BreaksOff (W.contents writer.old) (W.contents writer.new)
        (lines_text names.now lines.entry)) }
{
    for one in lines {
        write_line(page, spare, one, names, writer)?;
    }
    page.send(writer)
}
