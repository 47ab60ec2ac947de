//! Readers and writers that don't do what is asked of them.

use std::io::{self, ErrorKind, Read, Write};

/// A reader that gives one byte at a time, and is interrupted before each.
#[derive(Drop)]
pub struct Trickle<'a> {
    pub rest: &'a [u8],
    pub interrupted: bool,
}

impl Read for Trickle<'_> {
    fn read(&mut self, buffer: &mut [u8]) -> io::Result<usize> {
        self.interrupted = !self.interrupted;
        if self.interrupted {
            return Err(io::Error::from(ErrorKind::Interrupted));
        }
        let count = buffer.len().min(1);
        self.rest.read(&mut buffer[..count])
    }
}

/// A reader that fails behind its text.
#[derive(Drop)]
pub struct Torn<'a> {
    pub rest: &'a [u8],
}

impl Read for Torn<'_> {
    fn read(&mut self, buffer: &mut [u8]) -> io::Result<usize> {
        if self.rest.is_empty() {
            return Err(io::Error::from(ErrorKind::Other));
        }
        self.rest.read(buffer)
    }
}

/// A reader that is interrupted so many times, and then has a text.
#[derive(Drop)]
pub struct Restless<'a> {
    pub interruptions: u32,
    pub rest: &'a [u8],
}

impl Read for Restless<'_> {
    fn read(&mut self, buffer: &mut [u8]) -> io::Result<usize> {
        if self.interruptions > 0 {
            self.interruptions -= 1;
            return Err(io::Error::from(ErrorKind::Interrupted));
        }
        self.rest.read(buffer)
    }
}

/// A writer that takes at most three bytes a call, and `room` in all; then it fails or takes nothing.
#[derive(Drop)]
pub struct Narrow {
    pub taken: Vec<u8>,
    pub room: usize,
    pub fails: bool,
}

impl Write for Narrow {
    fn write(&mut self, bytes: &[u8]) -> io::Result<usize> {
        let count = bytes.len().min(3).min(self.room);
        if count == 0 && self.fails {
            return Err(io::Error::from(ErrorKind::BrokenPipe));
        }
        self.taken.extend_from_slice(&bytes[..count])?;
        self.room -= count;
        Ok(count)
    }

    fn flush(&mut self) -> io::Result<()> {
        Ok(())
    }
}

/// A writer that is interrupted before each byte that it takes.
#[derive(Drop)]
pub struct Hurried {
    pub taken: Vec<u8>,
    pub interrupted: bool,
}

impl Write for Hurried {
    fn write(&mut self, bytes: &[u8]) -> io::Result<usize> {
        self.interrupted = !self.interrupted;
        if self.interrupted {
            return Err(io::Error::from(ErrorKind::Interrupted));
        }
        let count = bytes.len().min(1);
        self.taken.extend_from_slice(&bytes[..count])?;
        Ok(count)
    }

    fn flush(&mut self) -> io::Result<()> {
        Ok(())
    }
}
