//! Runs in which some are always able to step. The others get their turn, too, which no clause says.

ghost use Rattle.std.specs.Prelude.{All};
ghost use Rattle.sdl_script.specs.Script.{SendsFromEnv};

use crate::given::{Given, make_given};
use run_record::Report;
use sdl_workers::{Gate, Stage, Watch, run, run_serial};
use settle_checks::transitions_in;
use std::alloc::Global;
use std::process::Abort;
use std::sync::Wait;
use std::sync::atomic::{AtomicUsize, Ordering};
use std::thread;
use std::thread::Threads;
use std::time::{Clock, Duration};

/// With how many workers a row is run.
static WORKERS: [usize; 5] = [1, 2, 3, 4, 16];

/// How often a row is run with each number of workers.
const ROUNDS: u32 = 2;

/// After how many steps of a pool each of its workers has had a break, on average.
const STEPS_AWAKE: usize = 1_024;

/// After so few steps of all there is a break where one that is to be stopped must have a processor before another one
/// has made 1,000 steps: else all signals go to it, and none to the next one.
const STEPS_AT_ONCE: usize = 16;

/// Each instance makes so great a part of its serial transitions, at least.
const PART: usize = 10;

/// A limit that no row reaches which comes to its end.
const LIMIT: u64 = 1_000_000;

/// Fewer than most runs have workers.
static THREE: &str = "system S;
    process P (3); start; nextstate s; state s; provided true; nextstate -; endprocess; endsystem;";

/// More than a worker takes at once.
static SIX_HUNDRED: &str = "system S;
    process P (600); start; nextstate s; state s; provided true; nextstate -; endprocess; endsystem;";

/// As many that the driver wakes at once.
static WOKEN: &str = "system S;
    process P (600); timer T; start; set(now + 1, T); nextstate w; state w; input T; nextstate s; endstate;
    state s; provided true; nextstate -; endprocess; endsystem;";

/// Two that never rest, and a third that stops them after 1,000 signals.
static STOPPED: &str = "system S; signal halt;
    process P (2); start; nextstate s; state s; provided true; nextstate -; input halt; stop; endprocess;
    process Q; dcl n Integer := 0; start; nextstate t;
    state t; provided n < 1000; task n := n + 1; output halt; nextstate -; endprocess; endsystem;";

/// Has the thread that makes the next step sleep a millisecond, again and again. The more workers there are, the sooner
/// each sleeps: so most workers sleep at a time, and who is awake has a processor at once, though there are two for
/// sixteen workers, and other programs run. Else a worker could wait for one, with the numbers that it has, until the
/// others have used up the limit.
#[derive(Drop)]
struct Breaks<'r, C: Clock> {
    clock: &'r C,
    /// After how many steps of all there is a break.
    every: usize,
    steps: AtomicUsize,
}

impl<'r, C: Clock> Breaks<'r, C> {
    /// Breaks after so many steps of all.
    fn new(clock: &'r C, every: usize) -> Self {
        Breaks {
            clock,
            every,
            steps: AtomicUsize::new(0),
        }
    }
}

impl<'r, C: Clock> Gate for Breaks<'r, C> {
    fn begun<R: Wait>(&self, _rt: &R, _number: u32) {
        let step = self.steps.fetch_add(1, Ordering::SeqCst);
        if step.is_multiple_of(self.every) {
            thread::sleep(self.clock, Duration::from_millis(1));
        }
    }
}

impl<'r, C: Clock> Watch for Breaks<'r, C> {
    fn reached(&self, _stage: Stage) {}
}

/// After how many steps of all there is a break with so many workers.
fn steps_between(workers: usize) -> usize {
    STEPS_AWAKE / workers.max(1)
}

/// The report of a run with so many workers, in which there is a break after so many steps of all.
fn report_with<R: Threads + Wait + Abort + Clock + Copy + Send + Sync>(
    rt: &R,
    alloc: Global,
    given: &Given,
    workers: usize,
    every: usize,
    limit: u64,
) -> Report
    requires { All (SendsFromEnv given.now.system) given.now.script.lines.items }
{
    let breaks = Breaks::new(rt, every);
    let Given { system, script } = given;
    run(rt, alloc, system, script, workers, limit, &breaks).expect(rt, "a report")
}

#[test]
fn three(rt: HostRuntime) {
    expect_turns(&rt, rt.alloc(), THREE, "", 200_000);
}

#[test]
fn six_hundred(rt: HostRuntime) {
    expect_turns(&rt, rt.alloc(), SIX_HUNDRED, "", 100_000);
}

#[test]
fn woken(rt: HostRuntime) {
    expect_turns(&rt, rt.alloc(), WOKEN, "1", 100_000);
}

/// Sees that each instance makes its part of what it makes serially, with each number of workers.
fn expect_turns<R: Threads + Wait + Abort + Clock + Copy + Send + Sync>(
    rt: &R,
    alloc: Global,
    specification: &str,
    script: &str,
    limit: u64,
) {
    let given = make_given(rt, alloc, specification, script);
    let serial = serial_report(rt, alloc, &given, limit);
    assert!(rt; !serial.whole, "serially");
    for workers in &WORKERS {
        for _ in 0..ROUNDS {
            let every = steps_between(*workers);
            let report = report_with(rt, alloc, &given, *workers, every, limit);
            expect_parts(rt, *workers, &report, &serial);
        }
    }
}

fn serial_report(rt: &impl Abort, alloc: Global, given: &Given, limit: u64) -> Report {
    run_serial(alloc, &given.system, &given.script, limit).expect(rt, "a serial report")
}

/// Sees that each instance of a report made its part of what it made serially.
fn expect_parts(rt: &impl Abort, workers: usize, report: &Report, serial: &Report) {
    assert!(rt; report.records.len() == serial.records.len());
    for (record, serially) in report.records.iter().zip(serial.records.iter()) {
        let (number, made) = (record.pid(), transitions_in(record));
        let least = transitions_in(serially) / PART;
        assert!(rt;
            made >= least,
            "{workers} workers: #{number} made {made} transitions"
        );
    }
}

/// The run comes to its end, as it does serially.
#[test]
fn stopped(rt: HostRuntime) {
    let alloc = rt.alloc();
    let given = make_given(&rt, alloc, STOPPED, "");
    assert!(rt; serial_report(&rt, alloc, &given, LIMIT).whole, "serially");
    for workers in &WORKERS {
        for _ in 0..ROUNDS {
            let report = report_with(&rt, alloc, &given, *workers, STEPS_AT_ONCE, LIMIT);
            assert!(rt; report.whole, "{workers} workers");
        }
    }
}
