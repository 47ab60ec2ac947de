//! A file that is written of a run.

use crate::failure::Failure;
use sdl_command_line::OutputFile;
use sdl_engine::TextFault;
use std::io;
use std::io::Write;

/// A file with the name that it is to have.
#[derive(Drop)]
pub struct Paper<'r> {
    name: String,
    file: OutputFile<'r, HostRuntime>,
}

impl<'r> Paper<'r> {
    /// The file of this name, made anew.
    pub fn create(rt: &'r HostRuntime, name: &str) -> Result<Paper<'r>, Failure> {
        let name = String::from_str(rt.alloc(), name)?;
        match OutputFile::create(rt, name.as_str()) {
            Ok(file) => Ok(Paper { name, file }),
            Err(error) => Err(Failure::Unwritten(name, error)),
        }
    }

    /// Ends the file, once the whole text is written.
    pub fn finish(self) -> Result<(), Failure> {
        match self.file.finish() {
            Ok(()) => Ok(()),
            Err(error) => Err(Failure::Unwritten(self.name, error)),
        }
    }

    /// What comes of this fault of a text that was to be written into it.
    pub fn failure(mut self, fault: TextFault) -> Failure {
        if fault != TextFault::Write {
            return Failure::Text(fault);
        }
        let error = self.file.fault();
        Failure::Unwritten(self.name, error)
    }
}

impl Write for Paper<'_> {
    fn write(&mut self, bytes: &[u8]) -> io::Result<usize> {
        self.file.write(bytes)
    }

    fn flush(&mut self) -> io::Result<()> {
        self.file.flush()
    }
}
