//! A run that is settled from its start on: all of its transitions are made by `run_rest`.

ghost use Rattle.std.specs.Prelude.{All};
ghost use Rattle.threads_shared.specs.Environment.{IsOfEnv};

use crate::cases::{CASES, Case};
use crate::given::{Given, make_given, serial_text, text_of};
use crate::runs::{Plan, Way, settle_named};
use std::alloc::Global;
use std::process::Abort;
use std::sync::Wait;
use std::thread::Threads;

/// The limits with which each case is run. With the last one those end that do not go on for ever.
static LIMITS: [u64; 6] = [1, 2, 3, 5, 8, 1_000];

/// A run that is made by `run_rest` alone has the serial text, whole or cut.
#[test]
fn has_the_serial_text(rt: HostRuntime) {
    for case in &CASES {
        expect_serial(&rt, rt.alloc(), case);
    }
}

fn expect_serial<R: Threads + Wait + Abort + Copy + Sync>(rt: &R, alloc: Global, case: &Case) {
    let given = make_given(rt, alloc, case.specification, case.script);
    for limit in &LIMITS {
        let plan = Plan {
            alloc,
            limit: *limit,
            way: Way::AtOnce,
        };
        expect_text(rt, case.name, &given, plan);
    }
}

/// A run that `run_rest` leaves after some transitions goes on from there, with the script that is left and the timers
/// that are set.
#[test]
fn goes_on(rt: HostRuntime) {
    for case in &CASES {
        if case.one_at_a_time {
            expect_parted(&rt, rt.alloc(), case);
        }
    }
}

fn expect_parted<R: Threads + Wait + Abort + Copy + Sync>(rt: &R, alloc: Global, case: &Case) {
    let given = make_given(rt, alloc, case.specification, case.script);
    for count in 1..=9 {
        let plan = Plan {
            alloc,
            limit: 100,
            way: Way::After(count),
        };
        expect_text(rt, case.name, &given, plan);
    }
}

/// Sees that a run that is settled so has the text of the serial run.
fn expect_text<R: Threads + Wait + Abort + Copy + Sync>(
    rt: &R,
    name: &str,
    given: &Given,
    plan: Plan,
)
    requires { All IsOfEnv given.now.script.lines.items }
{
    let Plan { alloc, limit, .. } = plan;
    let wanted = serial_text(rt, alloc, given, limit);
    let settled = settle_named(rt, given, plan).expect(rt, "a settled report");
    let text = text_of(rt, alloc, &settled, &given.system);
    assert!(rt;
        text.as_str() == wanted.as_str(),
        "{name}, limit {limit}: not {wanted}, but {text}"
    );
}
