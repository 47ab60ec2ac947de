//! All cases of a folder.

use crate::case::Case;
use crate::fault::{Fault, FormatError, FormatFault};
use crate::file::{Cases, read_file};
use crate::lines::{Line, Lines, lines_of};
use std::alloc::Global;
use std::collections::BTreeSet;
use std::rt::Files;
use std::{fs, str};

/// The file that names the case files.
const INDEX: &str = "index";

/// Reads the case files that the index names.
pub fn read_cases<R: Files + AllocGlobal>(rt: &R) -> Result<Vec<Case>, Fault> {
    let index = read_bytes(rt, INDEX)?;
    let lines = in_file(rt.alloc(), INDEX, lines_of(index.as_slice()))?;
    read_files(rt, lines)
}

/// Reads the case files that lines of the index name.
fn read_files<R: Files + AllocGlobal>(rt: &R, index: Lines<'_>) -> Result<Vec<Case>, Fault> {
    let alloc = rt.alloc();
    let mut cases = Cases {
        all: Vec::new(alloc),
        names: BTreeSet::new(alloc),
    };
    let mut rest = index;
    while let Some((line, below)) = rest.split_first() {
        if !line.is_comment() {
            add_file(rt, line, &mut cases)?;
        }
        rest = below;
    }
    Ok(cases.all)
}

/// Appends the cases of the file that a line of the index names.
fn add_file<R: Files + AllocGlobal>(
    rt: &R,
    line: Line<'_>,
    cases: &mut Cases,
) -> Result<(), Fault> {
    let alloc = rt.alloc();
    let Ok(name) = str::from_utf8(line.text) else {
        return in_file(alloc, INDEX, Err(line.fault(FormatError::Name)));
    };
    let bytes = read_bytes(rt, name)?;
    in_file(alloc, name, read_file(alloc, bytes.as_slice(), cases))
}

fn read_bytes<R: Files + AllocGlobal>(rt: &R, name: &str) -> Result<Vec<u8>, Fault> {
    match fs::read(rt, name) {
        Ok(bytes) => Ok(bytes),
        Err(error) => Err(Fault::Unreadable {
            file: String::from_str(rt.alloc(), name)?,
            error,
        }),
    }
}

/// Names the file in which a fault was found.
fn in_file<T: Drop>(alloc: Global, name: &str, read: Result<T, FormatFault>) -> Result<T, Fault> {
    match read {
        Ok(value) => Ok(value),
        Err(fault) => Err(Fault::Format {
            file: String::from_str(alloc, name)?,
            fault,
        }),
    }
}
