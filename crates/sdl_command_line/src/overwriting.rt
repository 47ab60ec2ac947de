//! Files that are to be written, and are among those that are read.

use crate::expectation::Expectation;
use crate::task::{InputFile, Task};
use std::fs::{self, Metadata};
use std::os::unix::fs::MetadataExt;
use std::rt::Files;

/// An option whose file is one that is read: what it would do with the file, and what is read there.
#[derive(Clone, Copy, PartialEq, Eq)]
pub struct Overwriting {
    pub option: &'static str,
    pub deed: &'static str,
    pub text: &'static str,
}

/// The first option whose file is that of the specification or of the script, under whatever name, or that would write
/// the file with what is expected. A file that isn't there is none of the first two, and neither is a terminal, a pipe
/// or a device.
pub fn overwritten_by(files: &impl Files, task: &Task) -> Option<Overwriting> {
    if let Some(chart) = &task.chart {
        if let Some(text) = text_in(files, task, chart.name.as_str()) {
            return Some(Overwriting {
                option: "--chart",
                deed: "overwrite",
                text,
            });
        }
    }
    if let Some(coverage) = &task.coverage {
        if let Some(text) = text_in(files, task, coverage.name.as_str()) {
            return Some(Overwriting {
                option: "--coverage",
                deed: "overwrite",
                text,
            });
        }
    }
    let expectation = task.expectation.as_ref()?;
    let text = input_in(files, task, expectation.name.as_str())?;
    Some(use_of(expectation, text))
}

/// What would be done with the file of what is expected, in which this is read.
fn use_of(expectation: &Expectation, text: &'static str) -> Overwriting {
    if expectation.blesses {
        Overwriting {
            option: "--bless",
            deed: "overwrite",
            text,
        }
    } else {
        Overwriting {
            option: "--expect",
            deed: "compare with",
            text,
        }
    }
}

/// What is read in the file of this name, if anything is: of the input, or what is expected.
fn text_in(files: &impl Files, task: &Task, name: &str) -> Option<&'static str> {
    if let Some(text) = input_in(files, task, name) {
        return Some(text);
    }
    let expectation = task.expectation.as_ref()?;
    is_same(files, expectation.name.as_str(), name).then_some("what is expected")
}

/// What of the input is read in the file of this name, if anything is.
fn input_in(files: &impl Files, task: &Task, name: &str) -> Option<&'static str> {
    let written = file_of(files, name)?;
    if is_file(files, &task.text, written) {
        return Some("the specification");
    }
    let script = task.script.as_ref()?;
    is_file(files, script, written).then_some("the script")
}

/// Whether these are names of one file.
fn is_same(files: &impl Files, one: &str, other: &str) -> bool {
    match file_of(files, one) {
        Some(file) => file_of(files, other) == Some(file),
        None => one == other,
    }
}

/// A file, whatever names it has.
#[derive(Clone, Copy, PartialEq, Eq)]
struct FileId {
    device: u64,
    node: u64,
}

/// Whether a text is read in this file.
fn is_file(files: &impl Files, text: &InputFile, id: FileId) -> bool {
    let name = match text {
        InputFile::StandardInput => "/dev/stdin",
        InputFile::Named(name) => name.as_str(),
    };
    file_of(files, name) == Some(id)
}

/// The ordinary file of this name, if there is one.
fn file_of(files: &impl Files, name: &str) -> Option<FileId> {
    let metadata: Metadata = fs::metadata(files, name).ok()?;
    metadata.is_file().then_some(FileId {
        device: metadata.dev(),
        node: metadata.ino(),
    })
}
