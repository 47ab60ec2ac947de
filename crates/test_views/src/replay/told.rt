//! Runs on threads of which an order is found.

ghost use Rattle.std.specs.Prelude.{All};
ghost use Rattle.sdl_script.specs.Script.{SendsFromEnv};

use crate::replay::given::{Given, make_given};
use sdl_workers::{Open, Settled, run_with_course};
use std::alloc::Global;
use std::process::Abort;
use std::sync::Wait;
use std::thread::Threads;
use view_run::{Found, find_order};

/// How many workers make a run.
static WORKERS: [usize; 3] = [1, 2, 4];

/// How often each of these numbers of workers makes a run of a specification.
const ROUNDS: usize = 30;

/// A limit that whole runs don't reach.
pub const LIMIT: u64 = 1_000_000;

/// Sees that an order is found of each of many runs of a specification on a script, and that these are whole, or not.
pub fn expect_orders<R: Threads + Wait + Abort + Copy + Send + Sync>(
    rt: &R,
    alloc: Global,
    specification: &str,
    script: &str,
    limit: u64,
    whole: bool,
) {
    let given = make_given(rt, alloc, specification, script);
    for workers in &WORKERS {
        for _ in 0..ROUNDS {
            expect_order(rt, alloc, &given, *workers, limit, whole);
        }
    }
}

/// Sees that an order is found of a run by so many workers.
fn expect_order<R: Threads + Wait + Abort + Copy + Send + Sync>(
    rt: &R,
    alloc: Global,
    given: &Given,
    workers: usize,
    limit: u64,
    whole: bool,
)
    requires { All (SendsFromEnv given.now.system) given.now.script.lines.items }
{
    let Given { system, script } = given;
    let ran = run_with_course(rt, alloc, system, script, workers, limit, &Open);
    let Settled { report, course } = ran.expect(rt, "a run");
    assert!(rt; report.whole == whole, "{workers} workers: whole");
    let course = course.expect(rt, "a course");
    let found = find_order(alloc, system, script, &report, &course).expect(rt, "memory");
    if let Found::Stuck { told, number } = found {
        let count = told.len();
        assert!(rt;
            false,
            "{workers} workers: stuck at #{number} behind {count} events"
        );
    }
}
