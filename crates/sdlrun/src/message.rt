//! Standard error, as explanations go there.

ghost use Rattle.std.specs.Prelude.{◌≤◌, length};
ghost use Rattle.std.specs.Io.{WritesAtMost};

use std::env::{self, VarError};
use std::io::{self, IsTerminal, Stderr, Write};

/// Begins the colour of carets: bold red.
const COLOUR: &[u8] = b"\x1b[1;31m";

/// Ends it.
const PLAIN: &[u8] = b"\x1b[0m";

/// Standard error. On a terminal the carets under a place have a colour.
#[derive(Drop)]
pub struct Message {
    stderr: Stderr,
    has_colours: bool,
    /// Whether the line that is written has only blanks so far.
    is_blank: bool,
}

impl Message {
    /// Standard error. It has no colours if the variable `NO_COLOR` is set, and not empty.
    pub fn new(rt: &HostRuntime) -> Message {
        let stderr = rt.stderr();
        let has_colours = stderr.is_terminal() && !forbids_colours(rt);
        Message {
            stderr,
            has_colours,
            is_blank: true,
        }
    }

    /// How many of these bytes are carets under a place, from the first one on.
    fn carets_in(&self, bytes: &[u8]) -> usize
        ensures { result ≤ length bytes.now }
    {
        if self.is_blank { carets_of(bytes) } else { 0 }
    }

    /// Writes carets in their colour.
    fn write_carets(&mut self, carets: &[u8]) -> io::Result<usize>
        ensures { WritesAtMost result carets.now }
    {
        self.is_blank = false;
        self.stderr.write_all(COLOUR)?;
        self.stderr.write_all(carets)?;
        self.stderr.write_all(PLAIN)?;
        Ok(carets.len())
    }

    /// Writes bytes of one line as they are.
    fn write_plain(&mut self, bytes: &[u8]) -> io::Result<usize>
        ensures { WritesAtMost result bytes.now }
    {
        let count = self.stderr.write(bytes)?;
        self.is_blank = match bytes[..count].last() {
            Some(b'\n') => true,
            Some(b' ' | b'\t') => self.is_blank,
            Some(_) => false,
            None => self.is_blank,
        };
        Ok(count)
    }
}

impl Write for Message {
    fn write(&mut self, bytes: &[u8]) -> io::Result<usize> {
        if !self.has_colours {
            return self.stderr.write(bytes);
        }
        let carets = self.carets_in(bytes);
        if carets > 0 {
            return self.write_carets(&bytes[..carets]);
        }
        self.write_plain(&bytes[..piece_of(bytes)])
    }

    fn flush(&mut self) -> io::Result<()> {
        self.stderr.flush()
    }
}

/// Whether the environment asks for no colours.
fn forbids_colours(rt: &HostRuntime) -> bool {
    match env::var(rt, "NO_COLOR") {
        Ok(value) => !value.is_empty(),
        Err(VarError::NotPresent) => false,
        Err(_) => true,
    }
}

/// How many carets these bytes begin with.
fn carets_of(bytes: &[u8]) -> usize
    ensures { result ≤ length bytes.now }
{
    bytes.iter().take_while(|byte| **byte == b'^').count()
}

/// How many blanks these bytes begin with; if they begin with none, how many bytes the first line has with its end.
fn piece_of(bytes: &[u8]) -> usize
    ensures { result ≤ length bytes.now }
{
    let blanks = bytes.iter().take_while(|byte| is_blank(**byte)).count();
    if blanks > 0 {
        return blanks;
    }
    match bytes.iter().position(|byte| *byte == b'\n') {
        Some(at) => at + 1,
        None => bytes.len(),
    }
}

fn is_blank(byte: u8) -> bool {
    byte == b' ' || byte == b'\t'
}
