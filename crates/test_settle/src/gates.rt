//! That two workers make steps at the same time, which no text tells.

use crate::given::{make_given, text_with};
use sdl_workers::{Gate, Stage, Watch};
use std::sync::Wait;
use std::sync::atomic::{AtomicBool, AtomicU32, Ordering};
use std::thread;
use std::time::{Clock, Duration};

/// Two processes of three transitions each.
static SPECIFICATION: &str = "system S;
    process A; dcl n Integer := 0; start; nextstate s;
    state s; provided n < 2; task n := n + 1; nextstate -; endprocess;
    process B; dcl n Integer := 0; start; nextstate s;
    state s; provided n < 2; task n := n + 1; nextstate -; endprocess; endsystem;";

static REPORT: &str = "\
instance #1 A parent null
0 start
  nextstate s
0 provided 1
  task n := 1
  nextstate s
0 provided 1
  task n := 2
  nextstate s
rest s
instance #2 B parent null
0 start
  nextstate s
0 provided 1
  task n := 1
  nextstate s
0 provided 1
  task n := 2
  nextstate s
rest s
end 0 whole
";

/// How many transitions each makes.
const TRANSITIONS: u32 = 3;

/// How often the row is run.
const RUNS: u32 = 60;

/// How often a hold looks whether the other step has begun, a millisecond after the look before.
const MOST_TURNS: u32 = 10_000;

/// Holds the step of each transition of two instances until the other's of the same transition has begun, for so many
/// turns at most. It has counts of the steps that have begun.
#[derive(Drop)]
struct Both<'r, C: Clock> {
    clock: &'r C,
    first: AtomicU32,
    second: AtomicU32,
    ran_out: AtomicBool,
}

impl<'r, C: Clock> Both<'r, C> {
    fn new(clock: &'r C) -> Self {
        Both {
            clock,
            first: AtomicU32::new(0),
            second: AtomicU32::new(0),
            ran_out: AtomicBool::new(false),
        }
    }

    /// Counts a step of one of them, and waits until the other has begun as many. Once a hold ran out none waits.
    fn hold(&self, own: &AtomicU32, other: &AtomicU32) {
        let step = own.fetch_add(1, Ordering::SeqCst).saturating_add(1);
        if step > TRANSITIONS || self.ran_out.load(Ordering::SeqCst) {
            return;
        }
        for _ in 0..MOST_TURNS {
            if other.load(Ordering::SeqCst) >= step {
                return;
            }
            thread::sleep(self.clock, Duration::from_millis(1));
        }
        self.ran_out.store(true, Ordering::SeqCst);
    }
}

impl<'r, C: Clock> Gate for Both<'r, C> {
    fn begun<R: Wait>(&self, _rt: &R, number: u32) {
        if number == 1 {
            self.hold(&self.first, &self.second);
        } else {
            self.hold(&self.second, &self.first);
        }
    }
}

impl<'r, C: Clock> Watch for Both<'r, C> {
    fn reached(&self, _stage: Stage) {}
}

/// All six steps begin, each beside the other instance's of the same transition, and no hold runs out. One thread alone
/// can't do this.
#[test]
fn stop_and_workers(rt: HostRuntime) {
    let alloc = rt.alloc();
    let given = make_given(&rt, alloc, SPECIFICATION, "");
    for _ in 0..RUNS {
        let both = Both::new(&rt);
        let text = text_with(&rt, alloc, &given, 2, 1_000, &both);
        assert!(rt; text.as_str() == REPORT, "{text}");
        assert!(rt; !both.ran_out.load(Ordering::SeqCst), "a hold ran out");
        assert!(rt; both.first.load(Ordering::SeqCst) >= TRANSITIONS);
        assert!(rt; both.second.load(Ordering::SeqCst) >= TRANSITIONS);
    }
}
