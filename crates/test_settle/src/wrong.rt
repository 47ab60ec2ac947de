//! Wrong runs, of each of which the records fit as far as they go: settling refuses them, and tells the number at which
//! they break what a report has to be. Beside each is a right run of the same system on the same script.

ghost use Rattle.std.specs.Prelude.{All};
ghost use Rattle.threads_shared.specs.Environment.{IsOfEnv};

use crate::by_hand::{Act, Made};
use crate::given::{Given, make_given};
use crate::runs::{Plan, Way, settle_named};
use run_record::{Report, RunError};
use std::alloc::Global;
use std::process::Abort;
use std::sync::Wait;
use std::thread::Threads;

/// No row comes to so many transitions.
const LIMIT: u64 = 100;

/// A system and a script, acts of which a right whole run comes, acts of which a wrong one comes, with what is done once
/// its records are closed, when both end, and the number that is told of the wrong one.
struct Row {
    name: &'static str,
    specification: &'static str,
    script: &'static str,
    end: u64,
    right: &'static [Act],
    wrong: &'static [Act],
    late: &'static [Act],
    told: u32,
}

/// Sets a timer for 5.
const TIMED: &str = "system S;
    process P; timer T; start; set(now + 5, T); nextstate s; state s; input T; stop; endprocess; endsystem;";

/// Takes a signal of the script.
const LISTENING: &str = "system S; signal a;
    process P; start; nextstate s; state s; input a; stop; endprocess; endsystem;";

/// The first sends the second a signal at 5.
const SENDING: &str = "system S; signal x;
    process A; timer T; start; set(now + 5, T); nextstate s; state s; input T; output x to B; stop; endprocess;
    process B; start; nextstate s; state s; input x; stop; endprocess; endsystem;";

/// The first creates the second at 5.
const CREATING: &str = "system S; signal b;
    process P; timer T; start; set(now + 5, T); nextstate s; state s; input T; create Q; stop; endprocess;
    process Q (0, 1); start; nextstate s; state s; input b; stop; endprocess; endsystem;";

/// Steps once more, whenever that is.
const GOING_ON: &str = "system S;
    process P; start; nextstate s; state s; provided true; stop; endprocess; endsystem;";

/// Creates an instance with a value.
const GIVING: &str = "system S;
    process P; start; create Q(5); stop; endprocess;
    process Q (0, 1); fpar n Integer; start; stop; endprocess; endsystem;";

/// Creates two instances, of which one may live.
const FILLING: &str = "system S;
    process P; start; create Q; nextstate s; state s; provided true; create Q; stop; endprocess;
    process Q (0, 1); start; nextstate s; state s; endprocess; endsystem;";

static ROWS: [Row; 9] = [
    Row {
        name: "a timer's signal is taken before its time",
        specification: TIMED,
        script: "10",
        end: 10,
        right: &[Act::Step(1, 0), Act::Expire(5), Act::Step(1, 5), Act::Hear],
        wrong: &[Act::Step(1, 0), Act::Expire(5), Act::Step(1, 0), Act::Hear],
        late: &[],
        told: 1,
    },
    Row {
        name: "a timer's signal comes after the last take",
        specification: TIMED,
        script: "10",
        end: 10,
        right: &[Act::Step(1, 0), Act::Expire(5), Act::Step(1, 5), Act::Hear],
        wrong: &[Act::Step(1, 0), Act::Hear],
        late: &[Act::Expire(5)],
        told: 1,
    },
    Row {
        name: "a signal of the script is taken before its time",
        specification: LISTENING,
        script: "7 a",
        end: 7,
        right: &[Act::Step(1, 0), Act::Hear, Act::Step(1, 7)],
        wrong: &[Act::Step(1, 0), Act::Hear, Act::Step(1, 0)],
        late: &[],
        told: 0,
    },
    Row {
        name: "a signal is taken before it is sent",
        specification: SENDING,
        script: "10",
        end: 10,
        right: &[
            Act::Step(1, 0),
            Act::Step(2, 0),
            Act::Expire(5),
            Act::Step(1, 5),
            Act::Step(2, 5),
            Act::Hear,
        ],
        wrong: &[
            Act::Step(1, 0),
            Act::Step(2, 0),
            Act::Expire(5),
            Act::Step(1, 5),
            Act::Step(2, 3),
            Act::Hear,
        ],
        late: &[],
        told: 0,
    },
    Row {
        name: "a start is before its create",
        specification: CREATING,
        script: "10",
        end: 10,
        right: &[
            Act::Step(1, 0),
            Act::Expire(5),
            Act::Step(1, 5),
            Act::Step(2, 5),
            Act::Hear,
        ],
        wrong: &[
            Act::Step(1, 0),
            Act::Expire(5),
            Act::Step(1, 5),
            Act::Step(2, 2),
            Act::Hear,
        ],
        late: &[],
        told: 0,
    },
    Row {
        name: "a signal of the script is missing that came after its receiver",
        specification: CREATING,
        script: "0 b to #2\n9 b to #2",
        end: 9,
        right: &[
            Act::Step(1, 0),
            Act::Hear,
            Act::Expire(5),
            Act::Step(1, 5),
            Act::Step(2, 5),
            Act::Hear,
            Act::Step(2, 9),
        ],
        wrong: &[
            Act::Step(1, 0),
            Act::Hear,
            Act::Hear,
            Act::Expire(5),
            Act::Step(1, 5),
            Act::Step(2, 5),
        ],
        late: &[],
        told: 2,
    },
    Row {
        name: "something happens after the end",
        specification: GOING_ON,
        script: "10",
        end: 10,
        right: &[Act::Step(1, 0), Act::Step(1, 0), Act::Hear],
        wrong: &[Act::Step(1, 0), Act::Step(1, 777), Act::Hear],
        late: &[],
        told: 0,
    },
    Row {
        name: "an instance has other values than its create gave",
        specification: GIVING,
        script: "",
        end: 0,
        right: &[Act::Step(1, 0), Act::Step(2, 0)],
        wrong: &[Act::Withhold(1, 0), Act::Step(2, 0)],
        late: &[],
        told: 1,
    },
    Row {
        name: "more live than may",
        specification: FILLING,
        script: "",
        end: 0,
        right: &[Act::Step(1, 0), Act::Step(2, 0), Act::Step(1, 0)],
        wrong: &[
            Act::Step(1, 0),
            Act::Step(2, 0),
            Act::End(1, 2),
            Act::Step(1, 0),
            Act::Step(3, 0),
        ],
        late: &[],
        told: 0,
    },
];

#[test]
fn wrong_runs(rt: HostRuntime) {
    for row in &ROWS {
        expect_row(&rt, rt.alloc(), row);
    }
}

/// Two transitions, the last one at 3, of a run that is cut at a time long after.
const CUT: Made = Made {
    acts: &[Act::Step(1, 0), Act::Step(1, 3)],
    whole: false,
    end: 777,
    late: &[],
};

#[test]
fn ends_at_the_last_event(rt: HostRuntime) {
    let given = make_given(&rt, rt.alloc(), GOING_ON, "10");
    let report = settled(&rt, rt.alloc(), &given, 2, CUT).expect(&rt, "a report that is cut");
    assert!(rt; report.end.get() == 3, "the end of a report that is cut");
}

#[test]
fn cut_before_its_limit(rt: HostRuntime) {
    let given = make_given(&rt, rt.alloc(), GOING_ON, "10");
    let refused = settled(&rt, rt.alloc(), &given, 3, CUT);
    assert!(rt; is_lost(&refused, 0), "cut before its limit");
}

/// Sees that the right run of a row is settled, and the wrong one is refused.
fn expect_row<R: Threads + Wait + Abort + Copy + Sync>(rt: &R, alloc: Global, row: &Row) {
    let given = make_given(rt, alloc, row.specification, row.script);
    let name = row.name;
    let right = Made {
        acts: row.right,
        whole: true,
        end: row.end,
        late: &[],
    };
    assert!(rt;
        settled(rt, alloc, &given, LIMIT, right).is_ok(),
        "right: {name}"
    );
    let wrong = Made {
        acts: row.wrong,
        whole: true,
        end: row.end,
        late: row.late,
    };
    let refused = settled(rt, alloc, &given, LIMIT, wrong);
    assert!(rt; is_lost(&refused, row.told), "wrong: {name}");
}

/// What comes of a run with this limit that is made so.
fn settled<R: Threads + Wait + Copy + Sync>(
    rt: &R,
    alloc: Global,
    given: &Given,
    limit: u64,
    made: Made,
) -> Result<Report, RunError>
    requires { All IsOfEnv given.now.script.lines.items }
{
    let plan = Plan {
        alloc,
        limit,
        way: Way::ByHand(made),
    };
    settle_named(rt, given, plan)
}

/// Whether something is lost, at this number.
fn is_lost(settled: &Result<Report, RunError>, number: u32) -> bool {
    match settled {
        Err(RunError::Lost(told)) => *told == number,
        _ => false,
    }
}
