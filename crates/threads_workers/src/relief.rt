//! Help for numbers that wait for a worker that isn't run.

use crate::waking::Unparkers;
use std::alloc::AllocError;
use std::sync::Wait;
use threads_ports::Run;
use threads_shared::{Own, Shared};

/// Looks at the local queues of the workers. What is in that of a worker which hasn't come to it since the last look
/// goes into the injector: the system doesn't run that worker, or it is at a long step. So of all numbers only that of
/// its job waits for it.
///
/// This worker's own queue is left alone: it comes to it for each job while something is there.
pub fn relieve_others<J: Run, R: Wait + Copy>(
    shared: &Shared<'_, '_, '_, J, R>,
    unparkers: Unparkers<'_>,
    own: &mut Own<J>,
) -> Result<(), AllocError> {
    own.lookout.jobs = 0;
    for (worker, local) in shared.tables.locals.iter().enumerate() {
        // Looks, without a lock: at each queue once more under its lock, before something is moved.
        let visits = local.visits();
        if own.lookout.is_away(worker, visits) && !local.is_empty() {
            unparkers.wake(shared.tables.relieve(shared.rt, local, visits)?);
        }
    }
    Ok(())
}
