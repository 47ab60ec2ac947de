//! Files and standard input, from which texts are read.

use crate::failure::Failure;
use sdl_command_line::{InputFile, Task};
use sdl_engine::{Source, TextFault};
use std::fs::{self, File};
use std::io::{self, ErrorKind, Read, Stdin};
use std::os::fd::AsFd;

/// Where a text is read.
#[derive(Drop)]
pub enum Opened {
    StandardInput(Stdin),
    File(File),
}

impl Read for Opened {
    fn read(&mut self, buffer: &mut [u8]) -> io::Result<usize> {
        match self {
            Opened::StandardInput(input) => input.read(buffer),
            Opened::File(file) => file.read(buffer),
        }
    }
}

/// A text that is read, and what was read of it, if that is kept. Where there is no memory for that it is let go.
#[derive(Drop)]
pub struct Kept {
    input: Opened,
    pub read: Option<Vec<u8>>,
}

impl Kept {
    fn keep(&mut self, bytes: &[u8]) {
        let Some(read) = &mut self.read else {
            return;
        };
        if read.extend_from_slice(bytes).is_err() {
            self.read = None;
        }
    }
}

impl Read for Kept {
    fn read(&mut self, buffer: &mut [u8]) -> io::Result<usize> {
        let count = self.input.read(buffer)?;
        self.keep(&buffer[..count]);
        Ok(count)
    }
}

/// The text and the script that a task names, opened. If standard input is closed, the first file that is opened gets
/// its number, and would be read in its place. So that is looked at before.
pub fn open_source(rt: &HostRuntime, task: &Task) -> Result<Source<Kept, Opened>, Failure> {
    if task.reads_standard_input() && !is_open(rt.stdin()) {
        return Err(Failure::Text(TextFault::Read));
    }
    let text = Kept {
        input: open_input(rt, &task.text)?,
        read: task.warns().then_some(Vec::new(rt.alloc())),
    };
    let script = match &task.script {
        Some(script) => Some(open_input(rt, script)?),
        None => None,
    };
    Ok(Source { text, script })
}

/// Whether there is standard input: only then it can be opened a second time.
fn is_open(input: Stdin) -> bool {
    input.as_fd().try_clone_to_owned().is_ok()
}

/// Opens what is named. A folder can't be opened.
fn open_input(rt: &HostRuntime, file: &InputFile) -> Result<Opened, Failure> {
    match file {
        InputFile::StandardInput => Ok(Opened::StandardInput(rt.stdin())),
        InputFile::Named(name) => match open_file(rt, name.as_str()) {
            Ok(file) => Ok(Opened::File(file)),
            Err(error) => Err(Failure::Unopened(name.clone()?, error)),
        },
    }
}

fn open_file(rt: &HostRuntime, name: &str) -> io::Result<File> {
    if fs::metadata(rt, name)?.is_dir() {
        return Err(io::Error::from(ErrorKind::IsADirectory));
    }
    File::open(rt, name)
}
