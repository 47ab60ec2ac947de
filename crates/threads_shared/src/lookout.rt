//! How a worker sees that another one isn't run.

ghost use Rattle.std.specs.Prelude.{◌≡◌, IfOk, [], replicate};
ghost use Rattle.threads_shared.specs.Lookout.{is_away, with_visits};

use std::alloc::{AllocError, Global};

/// What a worker has seen of the local queues of the workers: whether each of the others still comes to its own.
#[derive(Drop)]
pub struct Lookout {
    /// For each worker, how often it had come to its queue, when this worker looked last.
    pub visits: Vec<u64>,
    /// How many jobs this worker has done since.
    pub jobs: usize,
}

impl Lookout {
    /// That of a thread that looks at nobody.
    pub fn none(alloc: Global) -> Self
        ensures { (result.visits.items ≡ []) × (result.jobs ≡ 0) }
    {
        Lookout {
            visits: Vec::new(alloc),
            jobs: 0,
        }
    }

    /// That of one of so many workers, none of which has come to its queue yet. Refused for lack of memory.
    pub fn new(alloc: Global, workers: usize) -> Result<Self, AllocError>
        ensures { IfOk result (λ lookout. (lookout.visits.items ≡ replicate workers 0) × (lookout.jobs ≡ 0)) }
    {
        let mut visits = Vec::with_capacity(alloc, workers)?;
        for _worker in 0..workers {
            visits.push(0)?;
        }
        Ok(Lookout { visits, jobs: 0 })
    }

    /// Whether this worker, which has come to its queue so often, hasn't come since the last look. From now on this
    /// look is the last one.
    pub fn is_away(&mut self, worker: usize, visits: u64) -> bool
        ensures away { result ≡ is_away worker visits self.old.visits.items }
        ensures seen { self.new.visits.items ≡ with_visits worker visits self.old.visits.items }
        ensures jobs { self.new.jobs ≡ self.old.jobs }
    {
        let Some(seen) = self.visits.get_mut(worker) else {
            return false;
        };
        let away = *seen == visits;
        *seen = visits;
        away
    }
}
