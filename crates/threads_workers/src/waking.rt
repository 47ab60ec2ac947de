//! How the threads of a run wake each other.

use crossbeam_utils::sync::Unparker;
use std::alloc::Global;

/// The unparkers of a run's threads: those of the workers by their places, and the driver's. Each thread parks on a
/// parker of its own, which keeps one token: an unpark before the park is not lost.
#[derive(Clone, Copy, Drop)]
pub struct Unparkers<'a> {
    pub workers: &'a [Unparker<Global>],
    pub driver: &'a Unparker<Global>,
}

impl<'a> Unparkers<'a> {
    /// Wakes a worker that was noted as asleep, and is no longer.
    pub fn wake(&self, worker: Option<usize>) {
        let Some(place) = worker else {
            return;
        };
        if let Some(unparker) = self.workers.get(place) {
            unparker.unpark();
        }
    }
}
