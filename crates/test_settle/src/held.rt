//! That no number waits for a worker that isn't run, but that of its job.

use crate::given::make_given;
use sdl_workers::{Gate, Stage, Watch, run};
use std::alloc::Global;
use std::process::Abort;
use std::sync::Wait;
use std::sync::atomic::{AtomicBool, AtomicUsize, Ordering};
use std::thread;
use std::thread::Threads;
use std::time::{Clock, Duration};

/// So many instances, all of which are always able to step.
static SPECIFICATION: &str = "system S;
    process P (600); start; nextstate s; state s; provided true; nextstate -; endprocess; endsystem;";

/// So many are there, and no number is greater.
const INSTANCES: usize = 600;

/// With how many workers the row is run. All but one are held.
static WORKERS: [usize; 4] = [2, 3, 4, 16];

/// The limit of transitions: so many that one worker comes to all instances before.
const LIMIT: u64 = 300_000;

/// How often a hold looks whether all others have begun a step, a millisecond after the look before.
const MOST_TURNS: u32 = 10_000;

/// Holds the first steps that begin, each of another worker, until all instances have begun one. The numbers that these
/// workers have are in their local queues meanwhile, as if the system ran none of them.
#[derive(Drop)]
struct Hold<'r, C: Clock> {
    clock: &'r C,
    /// How many steps are held.
    workers: usize,
    steps: AtomicUsize,
    /// Whether each instance has begun a step, by its number.
    begun: Vec<AtomicBool>,
    /// How many have.
    count: AtomicUsize,
    ran_out: AtomicBool,
}

impl<'r, C: Clock> Hold<'r, C> {
    /// A hold of all of so many workers but one.
    fn new(rt: &impl Abort, alloc: Global, clock: &'r C, workers: usize) -> Self {
        let mut begun = Vec::new(alloc);
        for _number in 0..=INSTANCES {
            begun.push(AtomicBool::new(false)).expect(rt, "memory");
        }
        Hold {
            clock,
            workers: workers.saturating_sub(1),
            steps: AtomicUsize::new(0),
            begun,
            count: AtomicUsize::new(0),
            ran_out: AtomicBool::new(false),
        }
    }

    /// Notes that this instance has begun a step.
    fn note(&self, number: u32) {
        if let Some(begun) = self.begun.get(number as usize) {
            if !begun.swap(true, Ordering::SeqCst) {
                self.count.fetch_add(1, Ordering::SeqCst);
            }
        }
    }

    /// Waits until all instances have begun a step.
    fn wait(&self) {
        for _ in 0..MOST_TURNS {
            if self.count.load(Ordering::SeqCst) >= INSTANCES {
                return;
            }
            thread::sleep(self.clock, Duration::from_millis(1));
        }
        self.ran_out.store(true, Ordering::SeqCst);
    }
}

impl<'r, C: Clock> Gate for Hold<'r, C> {
    fn begun<R: Wait>(&self, _rt: &R, number: u32) {
        self.note(number);
        if self.steps.fetch_add(1, Ordering::SeqCst) < self.workers {
            self.wait();
        }
    }
}

impl<'r, C: Clock> Watch for Hold<'r, C> {
    fn reached(&self, _stage: Stage) {}
}

/// All instances begin a step while all workers but one are held in their first.
#[test]
fn one_worker_comes_to_all(rt: HostRuntime) {
    for workers in &WORKERS {
        expect_all(&rt, rt.alloc(), *workers);
    }
}

/// Sees that the hold of all of so many workers but one comes to its end.
fn expect_all<R: Threads + Wait + Abort + Clock + Copy + Send + Sync>(
    rt: &R,
    alloc: Global,
    workers: usize,
) {
    let given = make_given(rt, alloc, SPECIFICATION, "");
    let hold = Hold::new(rt, alloc, rt, workers);
    let report = run(
        rt,
        alloc,
        &given.system,
        &given.script,
        workers,
        LIMIT,
        &hold,
    )
    .expect(rt, "a report");
    assert!(rt; !report.whole, "{workers} workers: whole");
    let count = hold.count.load(Ordering::SeqCst);
    assert!(rt;
        !hold.ran_out.load(Ordering::SeqCst),
        "{workers} workers: {count} instances have begun a step"
    );
}
