//! What a command line expects of a run.

use clap::ArgMatches;
use std::alloc::{AllocError, Global};

/// The file with what is expected of a run.
#[derive(Drop)]
pub struct Expectation {
    pub name: String,
    pub part: Part,
    /// Whether the file is written, and not compared.
    pub blesses: bool,
}

/// What of a run is expected.
#[derive(Clone, Copy, PartialEq, Eq)]
pub enum Part {
    /// All that is written.
    Whole,
    /// The signals to the environment.
    Outputs,
}

/// What is expected of a run, if anything is.
pub fn expectation_of(
    alloc: Global,
    run: &ArgMatches<'_>,
) -> Result<Option<Expectation>, AllocError> {
    let Some(name) = run.get_str("expect") else {
        return Ok(None);
    };
    Ok(Some(Expectation {
        name: String::from_str(alloc, name)?,
        part: if run.get_flag("outputs") {
            Part::Outputs
        } else {
            Part::Whole
        },
        blesses: run.get_flag("bless"),
    }))
}
