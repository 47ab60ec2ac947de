//! The pool of workers, and the driver.

ghost use Rattle.std.specs.Prelude.{◌≡◌, IfOk};
ghost use Rattle.std.specs.Thread.{IsSend, IsSync};

use crate::driver::Driver;
use crate::gate::Gate;
use crate::waking::Unparkers;
use crate::worker::work;
use crossbeam_utils::sync::{Parker, Unparker};
use sdl_timers::Reader;
use std::alloc::{AllocError, Global};
use std::sync::Wait;
use std::thread;
use std::thread::Threads;
use threads_ports::{NumberSeat, Run};
use threads_shared::Shared;

/// Starts as many workers as may be, each on a thread of its own, and has the driver drive the run on the calling
/// thread, until the run is over. All threads are joined then, and the driver comes back. A thread that can't be
/// started is left out; without any, nothing is driven. Refused for lack of memory.
pub fn drive<'l, J: Run + Send + Sync, R: Threads + Wait + Copy + Send + Sync, G: Gate + Sync>(
    shared: &Shared<'_, '_, '_, J, R>,
    driver: Driver<'l, J>,
    reader: &mut Reader,
    seat: &mut NumberSeat<J>,
    workers: usize,
    gate: &G,
) -> Result<Driver<'l, J>, AllocError>
    ensures { IfOk result (λ after. after.environment.lines ≡ driver.entry.environment.lines) }
{
    let alloc = shared.alloc;
    let mut parkers = Vec::with_capacity(alloc, workers)?;
    let mut unparkers = Vec::with_capacity(alloc, workers)?;
    for _ in 0..workers {
        let parker = Parker::new(alloc)?;
        unparkers.push(parker.unparker().clone()?)?;
        parkers.push(parker)?;
    }
    let own = Parker::new(alloc)?;
    let unparkers = Unparkers {
        workers: unparkers.as_slice(),
        driver: own.unparker(),
    };
    join_all(shared, driver, reader, seat, parkers, &own, unparkers, gate)
}

/// Starts a worker for each parker, has the run driven, and joins them.
fn join_all<'l, J: Run + Send + Sync, R: Threads + Wait + Copy + Send + Sync, G: Gate + Sync>(
    shared: &Shared<'_, '_, '_, J, R>,
    driver: Driver<'l, J>,
    reader: &mut Reader,
    seat: &mut NumberSeat<J>,
    parkers: Vec<Parker<Global>>,
    own: &Parker<Global>,
    unparkers: Unparkers<'_>,
    gate: &G,
) -> Result<Driver<'l, J>, AllocError>
    ensures { IfOk result (λ after. after.environment.lines ≡ driver.entry.environment.lines) }
{
    let rt = shared.rt;
    // Before: no other thread has the run. After: each that was started is joined, so what they shared is the caller's
    // alone again.
    thread::scope(
        thread::scope_env(),
        rt,
        move |scope| -> Result<Driver<'_, J>, AllocError>
            requires { IsSend R.row × IsSync R.row × IsSync G.row }
            ensures { IfOk result (λ after. after.environment.lines ≡ driver.entry.environment.lines) }
        {
            let mut driver = driver;
            let mut parkers = parkers;
            let mut started: usize = 0;
            for _ in 0..parkers.len() {
                let Some(parker) = parkers.pop() else {
                    break;
                };
                let me = parkers.len();
                let Some(theirs) = seat.again(&shared.common.numbers) else {
                    continue;
                };
                let Ok(clock) = reader.again() else {
                    continue;
                };
                if scope
                    .spawn(move || work(shared, unparkers, gate, me, parker, clock, theirs))
                    .is_ok()
                {
                    started = started.saturating_add(1);
                }
            }
            shared.tables.injector.lock(rt).set_workers(started);
            let done = if started == 0 {
                Ok(())
            } else {
                driver.drive(shared, unparkers, own)
            };
            unparkers.wake(shared.tables.close(rt));
            done?;
            Ok(driver)
        },
    )
}
