//! The text that is gathered before it goes out, in a buffer of fixed length.

ghost use Rattle.std.specs.Prelude.{◌≡◌, ◌+◌, ◌≤◌, ◌++◌, [], length, IfErr, IfOk, OnErr, OnOk};
ghost use Rattle.std.specs.Bool.{OnFalse, OnTrue};
ghost use Rattle.std.specs.Io.KnownBytes.{Appends};
ghost use Rattle.run_record.specs.Entry.{event_of};
ghost use Rattle.sdl_report.specs.Gathered.{Breaks, Grows};
ghost use Rattle.sdl_report.specs.ReportText.{event_line};

use crate::common_line::{LINE, put_event};
use crate::put::put_text;
use crate::short_names::ShortNames;
use crate::write_whole::{WriteFault, write_text};
use port_model::Value;
use run_record::{Entry, Record};
use std::alloc::{AllocError, Global};
use std::io::Write;
use std::marker::Model;

/// So many bytes are gathered before they go out, and a common line more.
const GATHERED: usize = 32_768;

const SIZE: usize = GATHERED + LINE;

/// Gathered text, of up to 33,024 bytes. A common line is put into it without a test for room at each of its parts.
#[derive(Drop)]
pub struct Page {
    bytes: Vec<u8>,
    // so many of the bytes are the text
    end: usize,
}

impl Model for Page {
    ghost use Rattle.std.specs.Prelude.{◌≡◌, ◌≤◌, ℕ, List, take, vec_len};

    ghost Value = { List ℕ };

    ghost view = { λ page. take page.end page.bytes.items };

    ghost invariant = { λ page. (vec_len page.bytes ≡ 33024) × (page.end ≤ 33024) };
}

impl Page {
    /// A page without text.
    pub fn new(alloc: Global) -> Result<Page, AllocError>
        ensures { IfOk result (λ page. page ≡ []) }
    {
        Ok(Page {
            bytes: vec![in alloc; 0; SIZE]?,
            end: 0,
        })
    }

    /// Makes room for a common line: hands the text to the writer if there is none.
    #[inline(always)]
    pub fn make_room<W: Write>(&mut self, writer: &mut W) -> Result<(), WriteFault>
        ensures room { OnOk result (length self.new + 256 ≤ 33024) }
        ensures ok { OnOk result (Grows (W.contents writer.old) self.old (W.contents writer.new) self.new []) }
        ensures err { OnErr result (Breaks (W.contents writer.old) self.old (W.contents writer.new) []) }
        ensures fault { IfErr result (λ fault. fault ≡ WriteFault.Write) }
    {
        if self.end <= GATHERED {
            return Ok(());
        }
        self.send(writer)?;
        Ok(())
    }

    /// Appends the line of an event of the record, an entry with its values, if it's a common line.
    #[inline(always)]
    pub fn put_event(
        &mut self,
        entry: &Entry,
        values: &[Value],
        record: &Record,
        names: &ShortNames<'_>,
    ) -> bool
        requires { length self.old + 256 ≤ 33024 }
        ensures put { OnTrue result (self.new ≡ self.old
            ++ event_line names.now «record».now (event_of entry.now values.now)) }
        ensures not_put { OnFalse result (self.new ≡ self.old) }
    {
        match put_event(&mut self.bytes, self.end, entry, values, record, names) {
            Some(next) => {
                self.end = next;
                true
            }
            None => false,
        }
    }

    /// Appends a text of any length. What doesn't fit goes to the writer.
    #[inline(never)]
    pub fn push<W: Write>(&mut self, text: &str, writer: &mut W) -> Result<(), WriteFault>
        ensures ok { OnOk result (Grows (W.contents writer.old) self.old (W.contents writer.new) self.new text.now) }
        ensures err { OnErr result (Breaks (W.contents writer.old) self.old (W.contents writer.new) text.now) }
        ensures fault { IfErr result (λ fault. fault ≡ WriteFault.Write) }
    {
        if text.len() <= SIZE - self.end {
            self.end = put_text(&mut self.bytes, self.end, text);
            return Ok(());
        }
        self.send(writer)?;
        if text.len() > SIZE {
            return write_text(writer, text.as_bytes());
        }
        self.end = put_text(&mut self.bytes, 0, text);
        Ok(())
    }

    /// Hands the text to the writer, and has none then.
    #[inline(never)]
    pub fn send<W: Write>(&mut self, writer: &mut W) -> Result<(), WriteFault>
        ensures empty { OnOk result (self.new ≡ []) }
        ensures sent { OnOk result (Appends (W.contents writer.old) (W.contents writer.new) self.old) }
        ensures err { OnErr result (Breaks (W.contents writer.old) self.old (W.contents writer.new) []) }
        ensures fault { IfErr result (λ fault. fault ≡ WriteFault.Write) }
    {
        let (text, _) = self.bytes.split_at(self.end);
        write_text(writer, text)?;
        self.end = 0;
        Ok(())
    }
}
