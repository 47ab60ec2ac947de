//! A piece of a report, with its text.

ghost use Rattle.std.specs.Prelude.{◌≡◌, ◌++◌, [], OnErr, OnOk};
ghost use Rattle.std.specs.Io.KnownBytes.{Appends};
ghost use Rattle.sdl_report.specs.Gathered.{BreaksOff};
ghost use Rattle.sdl_report.specs.Lines.{lines_text};
ghost use Rattle.sdl_report.specs.Pieces.{IsMade, piece_text};

use crate::page::Page;
use crate::short_names::ShortNames;
use crate::workers::stretch::{Stretch, write_lines};
use crate::write_whole::{WriteFault, write_text};
use std::alloc::Global;
use std::io::Write;

/// Some lines of a report, and room for their text. Once a piece is written it takes other lines, so that the room is
/// used again.
#[derive(Drop)]
pub struct Piece<'a> {
    pub lines: Stretch<'a>,
    pub text: Vec<u8>,
    /// Whether that is the text of these lines. It isn't before it is made, nor if there was no memory for it.
    pub is_made: bool,
}

impl<'a> Piece<'a> {
    /// The lines, without their text.
    pub fn new(alloc: Global, lines: Stretch<'a>) -> Self {
        Piece {
            lines,
            text: Vec::new(alloc),
            is_made: false,
        }
    }

    /// Makes the text.
    pub fn make(&mut self, alloc: Global, names: &ShortNames<'_>)
        ensures lines { self.new.lines ≡ self.old.lines }
        ensures made { IsMade names.now self.new }
    {
        self.text.clear();
        let made = put_lines(alloc, &mut self.text, self.lines.again(), names);
        self.is_made = made.is_ok();
        // What it took goes back: memory is short.
        if !self.is_made {
            self.text = Vec::new(alloc);
        }
    }

    /// Writes the text, or one line after the other if there was no memory for it. The page is empty again then.
    pub fn write<W: Write>(
        &self,
        page: &mut Page,
        spare: &mut String,
        names: &ShortNames<'_>,
        writer: &mut W,
    ) -> Result<(), WriteFault>
        requires made { IsMade names.now self.now }
        requires page { page.old ≡ [] }
        ensures empty { OnOk result (page.new ≡ []) }
        ensures ok { OnOk result (Appends (W.contents writer.old) (W.contents writer.new)
            (piece_text names.now self.now)) }
        ensures err { OnErr result (BreaksOff (W.contents writer.old) (W.contents writer.new)
            (piece_text names.now self.now)) }
    {
        if self.is_made {
            write_text(writer, self.text.as_slice())
        } else {
            write_lines(page, spare, self.lines.again(), names, writer)
        }
    }
}

/// Appends the text of some lines.
fn put_lines(
    alloc: Global,
    text: &mut Vec<u8>,
    lines: Stretch<'_>,
    names: &ShortNames<'_>,
) -> Result<(), WriteFault>
    ensures { OnOk result (text.new.items ≡ text.old.items ++ lines_text names.now lines.entry) }
{
    let mut page = Page::new(alloc)?;
    let mut spare = String::new(alloc);
    write_lines(&mut page, &mut spare, lines, names, text)
}
