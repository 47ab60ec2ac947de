//! That the workers make all transitions of a whole run, which no text tells: settling would make what they left.

ghost use Rattle.std.specs.Prelude.{All};
ghost use Rattle.sdl_script.specs.Script.{SendsFromEnv};

use crate::given::{Given, make_given};
use run_record::Report;
use sdl_workers::{Gate, Stage, Watch, run};
use settle_checks::transitions_in;
use std::alloc::Global;
use std::process::Abort;
use std::sync::Wait;
use std::sync::atomic::{AtomicUsize, Ordering};
use std::thread::Threads;

/// An instance that steps at three moments, by its start, a timer and signals. It never looks in vain: it has neither
/// conditions nor continuous signals.
static ONE: &str = "system S; signal a;
    process P; timer T; start; set(now + 5, T); nextstate s;
    state s; input a; nextstate -; input T; nextstate -; endprocess; endsystem;";

static ONE_SCRIPT: &str = "0 a\n5 a\n9 a";

/// Many of which each steps at the first moment and at the last one.
static MANY: &str = "system S;
    process P (20); timer T; start; set(now + 5, T); nextstate s;
    state s; input T; nextstate -; endprocess; endsystem;";

static MANY_SCRIPT: &str = "5";

/// With how many workers a row is run, and how often with each.
static WORKERS: [usize; 3] = [1, 2, 4];

const ROUNDS: u32 = 20;

/// Counts the steps that workers begin.
#[derive(Drop)]
struct Begun {
    steps: AtomicUsize,
}

impl Gate for Begun {
    fn begun<R: Wait>(&self, _rt: &R, _number: u32) {
        self.steps.fetch_add(1, Ordering::SeqCst);
    }
}

impl Watch for Begun {
    fn reached(&self, _stage: Stage) {}
}

#[test]
fn one(rt: HostRuntime) {
    expect_all(&rt, rt.alloc(), ONE, ONE_SCRIPT);
}

#[test]
fn many(rt: HostRuntime) {
    expect_all(&rt, rt.alloc(), MANY, MANY_SCRIPT);
}

/// Sees that workers have begun as many steps as the records have transitions.
fn expect_all<R: Threads + Wait + Abort + Copy + Send + Sync>(
    rt: &R,
    alloc: Global,
    specification: &str,
    script: &str,
) {
    let given = make_given(rt, alloc, specification, script);
    for workers in &WORKERS {
        for _ in 0..ROUNDS {
            let begun = Begun {
                steps: AtomicUsize::new(0),
            };
            let report = report_by(rt, alloc, &given, *workers, &begun);
            let steps = begun.steps.load(Ordering::SeqCst);
            assert!(rt;
                report.whole && steps >= transitions(&report),
                "{workers} workers: {steps} steps"
            );
        }
    }
}

/// The report of the run with so many workers.
fn report_by<R: Threads + Wait + Abort + Copy + Send + Sync>(
    rt: &R,
    alloc: Global,
    given: &Given,
    workers: usize,
    begun: &Begun,
) -> Report
    requires { All (SendsFromEnv given.now.system) given.now.script.lines.items }
{
    let Given { system, script } = given;
    run(rt, alloc, system, script, workers, 1_000, begun).expect(rt, "a report")
}

/// How many transitions the records have.
fn transitions(report: &Report) -> usize {
    let mut count: usize = 0;
    for trace in &report.records {
        count = count.saturating_add(transitions_in(trace));
    }
    count
}
