//! What is wrong with a command line whose words are all known.

use std::alloc::AllocError;
use thiserror::Error;

/// What is wrong with a command line whose words are all known; or there is no memory.
#[derive(Clone, Copy, Debug, PartialEq, Eq, Error)]
pub enum Mistake {
    #[error("the name of a chart ends with `.svg`, `.html` or `.mpr`")]
    ChartEnding,
    #[error("the name of a file for --coverage ends with `.txt` or `.info`")]
    CoverageEnding,
    #[error("--only takes names of processes and numbers of instances, as in `--only Initiator,#5`")]
    Only,
    #[error("--only, --from and --until choose what a picture shows; a chart in `.mpr` has the whole run")]
    Whole,
    #[error("--until is before --from, and no time is between them")]
    Times,
    #[error("out of memory")]
    Memory,
}

impl From<AllocError> for Mistake {
    fn from(_error: AllocError) -> Mistake {
        Mistake::Memory
    }
}
