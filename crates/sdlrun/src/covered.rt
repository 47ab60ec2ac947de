//! The file that tells what a run covered.

use crate::failure::Failure;
use crate::paper::Paper;
use sdl_command_line::{CoverageFile, ToldRun, cover};

/// Writes what a run covered into the file that is named.
pub fn cover_file(
    rt: &HostRuntime,
    told: &ToldRun<'_>,
    coverage: &CoverageFile,
) -> Result<(), Failure> {
    let mut paper = Paper::create(rt, coverage.name.as_str())?;
    match cover(rt.alloc(), told, coverage.form, &mut paper) {
        Ok(()) => paper.finish(),
        Err(fault) => Err(paper.failure(fault)),
    }
}
