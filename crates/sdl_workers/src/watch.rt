//! What hears how far a run has come.

use threads_workers::Open;

/// How far a run on several threads has come.
#[derive(Clone, Copy)]
pub enum Stage {
    /// All threads are joined, and the run is settled next.
    Joined,
    /// The report is made. The ports of the run, and what its threads shared, are released next.
    Settled,
}

/// A watch. It hears on the calling thread how far a run has come, so what each part of it takes can be measured.
///
/// Nothing of the run depends on it: it is told only once no other thread of the run is left, it gets a stage and nothing
/// of the run, and it answers nothing. What `run` promises names no watch, so it holds with each.
pub trait Watch {
    /// The run has come so far.
    fn reached(&self, stage: Stage);
}

impl Watch for Open {
    fn reached(&self, _stage: Stage) {}
}
