//! Standard output, as an answer goes there.

use crate::failure::Failure;
use sdl_engine::TextFault;
use std::io::{self, ErrorKind, Stdout, Write};

/// Standard output, and whether it is a pipe that nobody reads any more.
#[derive(Drop)]
pub struct Answer {
    stdout: Stdout,
    closed: bool,
}

impl Answer {
    pub fn new(stdout: Stdout) -> Answer {
        Answer {
            stdout,
            closed: false,
        }
    }

    /// What comes of this fault of a text that was to go there.
    pub fn failure(&self, fault: TextFault) -> Failure {
        if fault == TextFault::Write && self.closed {
            return Failure::PipeClosed;
        }
        Failure::Text(fault)
    }
}

impl Write for Answer {
    fn write(&mut self, bytes: &[u8]) -> io::Result<usize> {
        match self.stdout.write(bytes) {
            Ok(count) => Ok(count),
            Err(error) => {
                self.closed = error.kind() == ErrorKind::BrokenPipe;
                Err(error)
            }
        }
    }

    fn flush(&mut self) -> io::Result<()> {
        self.stdout.flush()
    }
}
