//! The order of a run.

use view_text::Sending;
use view_timeline::Timeline;

/// One order of a run, as far as it is known.
#[derive(Drop)]
pub struct Order<'s> {
    pub told: Timeline,
    /// The instance that can't go on in it, if there is one. 0: all is told, but isn't known to be the run of the
    /// report.
    pub stuck: Option<u32>,
    /// The signals of the script that nobody took. None is known of an order that isn't known to its end.
    pub lost: Vec<Sending<'s>>,
}
