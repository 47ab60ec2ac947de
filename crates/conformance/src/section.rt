//! A case or a table of cases as it stands in a file.

use crate::fault::{FormatError, FormatFault};
use crate::lines::{Line, Lines};
use std::str;

/// How the first line of a case begins.
pub const CASE: &[u8] = b"==== ";

/// How the title of a block begins.
const BLOCK: &[u8] = b"---- ";

/// The section of a case: all from its name to the next one.
#[derive(Clone, Copy)]
pub struct Section<'a> {
    pub name: &'a str,
    /// The line of the name.
    pub number: usize,
    pub args: &'a str,
    /// The numbers of workers with which it is asked, too.
    pub workers: &'a str,
    pub status: u8,
    pub blocks: Blocks<'a>,
}

impl Section<'_> {
    /// The fault of the section as a whole.
    pub fn fault(&self, error: FormatError) -> FormatFault {
        FormatFault::At {
            line: self.number,
            error,
        }
    }
}

/// The blocks of a case, without the empty lines at their ends.
#[derive(Clone, Copy)]
pub struct Blocks<'a> {
    pub input: Option<Lines<'a>>,
    pub output: Option<Lines<'a>>,
    pub explained: Option<Lines<'a>>,
    /// What the run is told as with `--lines`, and with `--json`.
    pub lines: Option<Lines<'a>>,
    pub json: Option<Lines<'a>>,
    /// What is drawn of the run as a picture, and as text of Z.120.
    pub svg: Option<Lines<'a>>,
    pub mpr: Option<Lines<'a>>,
    pub table: Option<Lines<'a>>,
}

impl<'a> Blocks<'a> {
    /// The block of this title.
    fn block(&mut self, title: &[u8]) -> Option<&mut Option<Lines<'a>>> {
        match title {
            b"---- input" => Some(&mut self.input),
            b"---- output" => Some(&mut self.output),
            b"---- explained" => Some(&mut self.explained),
            b"---- lines" => Some(&mut self.lines),
            b"---- json" => Some(&mut self.json),
            b"---- svg" => Some(&mut self.svg),
            b"---- mpr" => Some(&mut self.mpr),
            b"---- table" => Some(&mut self.table),
            _ => None,
        }
    }
}

/// The head of a section: all between its name and the first block.
#[derive(Clone, Copy)]
struct Head<'a> {
    args: Option<&'a str>,
    workers: Option<&'a str>,
    status: Option<u8>,
}

/// Reads a case from the line of its name and what follows it.
pub fn read_section<'a>(title: Line<'a>, body: Lines<'a>) -> Result<Section<'a>, FormatFault> {
    let name = read_name(title)?;
    let (head, blocks) = body.split_at_mark(BLOCK);
    let head = read_head(head)?;
    let blocks = read_blocks(blocks)?;
    let Some(args) = head.args else {
        return Err(title.fault(FormatError::NoArguments));
    };
    Ok(Section {
        name,
        number: title.number,
        args,
        workers: head.workers.unwrap_or(""),
        status: head.status.unwrap_or(0),
        blocks,
    })
}

fn read_name(title: Line<'_>) -> Result<&str, FormatFault> {
    let name = title.text.strip_prefix(CASE).unwrap_or(b"");
    if name.is_empty() || !name.iter().all(|byte| is_of_name(*byte)) {
        return Err(title.fault(FormatError::Name));
    }
    str::from_utf8(name).map_err(|_| title.fault(FormatError::Name))
}

fn is_of_name(byte: u8) -> bool {
    byte.is_ascii_alphanumeric() || matches!(byte, b'-' | b'_' | b'.')
}

fn read_head(lines: Lines<'_>) -> Result<Head<'_>, FormatFault> {
    let mut head = Head {
        args: None,
        workers: None,
        status: None,
    };
    let mut rest = lines;
    while let Some((line, below)) = rest.split_first() {
        head = with_line(head, line)?;
        rest = below;
    }
    Ok(head)
}

/// A head with one more of its lines.
fn with_line<'a>(head: Head<'a>, line: Line<'a>) -> Result<Head<'a>, FormatFault> {
    if line.is_comment() {
        return Ok(head);
    }
    let Ok(text) = str::from_utf8(line.text) else {
        return Err(line.fault(FormatError::Head));
    };
    if let Some(args) = text.strip_prefix("args:") {
        if head.args.is_some() {
            return Err(line.fault(FormatError::Twice));
        }
        return Ok(Head {
            args: Some(args),
            ..head
        });
    }
    if let Some(workers) = text.strip_prefix("workers:") {
        if head.workers.is_some() {
            return Err(line.fault(FormatError::Twice));
        }
        return Ok(Head {
            workers: Some(workers),
            ..head
        });
    }
    if let Some(status) = text.strip_prefix("status:") {
        if head.status.is_some() {
            return Err(line.fault(FormatError::Twice));
        }
        let status: u8 = match status.trim().parse() {
            Ok(status) => status,
            Err(_) => return Err(line.fault(FormatError::Status)),
        };
        return Ok(Head {
            status: Some(status),
            ..head
        });
    }
    Err(line.fault(FormatError::Head))
}

fn read_blocks(lines: Lines<'_>) -> Result<Blocks<'_>, FormatFault> {
    let mut blocks = Blocks {
        input: None,
        output: None,
        explained: None,
        lines: None,
        json: None,
        svg: None,
        mpr: None,
        table: None,
    };
    let mut rest = lines;
    while let Some((title, below)) = rest.split_first() {
        let (text, after) = below.split_at_mark(BLOCK);
        add_block(&mut blocks, title, text.without_empty_end())?;
        rest = after;
    }
    Ok(blocks)
}

fn add_block<'a>(
    blocks: &mut Blocks<'a>,
    title: Line<'a>,
    text: Lines<'a>,
) -> Result<(), FormatFault> {
    let Some(block) = blocks.block(title.text) else {
        return Err(title.fault(FormatError::Block));
    };
    if block.is_some() {
        return Err(title.fault(FormatError::Twice));
    }
    *block = Some(text);
    Ok(())
}
