//! A settled run.

use port_model::Course;
use run_record::Report;

/// A settled run: its report, and what was kept for the one order of all that happened in it. None: nothing was to be
/// kept, or there was no memory for all of it.
#[derive(Drop)]
pub struct Settled {
    pub report: Report,
    pub course: Option<Course>,
}
