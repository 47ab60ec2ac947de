//! Runs of which something is lost before they are settled.

ghost use Rattle.std.specs.Prelude.{All};
ghost use Rattle.threads_shared.specs.Environment.{IsOfEnv};

use crate::given::{Given, make_given, text_of};
use crate::runs::{Plan, Way, settle_named};
use crate::texts::PING_PONG;
use run_record::{Report, RunError};
use std::alloc::Global;
use std::process::Abort;
use std::sync::Wait;
use std::thread::Threads;

/// The report of `PING_PONG` after the first transition of both.
static CUT: &str = "\
instance #1 A parent null
0 start
  output x to #2
  nextstate s
cut s
instance #2 B parent null
0 start
  nextstate s
cut s
end 0 cut
";

/// A run of `PING_PONG` that is cut at its limit, the instance whose senders are lost then, and the number that is
/// told.
struct Loss {
    limit: u64,
    senders_of: u32,
    told: Option<u32>,
}

static LOSSES: [Loss; 4] = [
    // A has sent x to B.
    Loss {
        limit: 2,
        senders_of: 1,
        told: Some(2),
    },
    // B has sent nothing yet.
    Loss {
        limit: 2,
        senders_of: 2,
        told: None,
    },
    // B has taken x, and sent y to A.
    Loss {
        limit: 3,
        senders_of: 1,
        told: Some(2),
    },
    Loss {
        limit: 3,
        senders_of: 2,
        told: Some(1),
    },
];

#[test]
fn lost_senders(rt: HostRuntime) {
    let alloc = rt.alloc();
    let given = make_given(&rt, alloc, PING_PONG, "");
    for loss in &LOSSES {
        expect_loss(&rt, alloc, &given, loss);
    }
}

/// Sees what a run comes to whose senders are lost so.
fn expect_loss<R: Threads + Wait + Abort + Copy + Sync>(
    rt: &R,
    alloc: Global,
    given: &Given,
    loss: &Loss,
)
    requires { All IsOfEnv given.now.script.lines.items }
{
    let plan = Plan {
        alloc,
        limit: loss.limit,
        way: Way::WithoutSenders(Some(loss.senders_of)),
    };
    let settled = settle_named(rt, given, plan);
    let number = loss.senders_of;
    assert!(rt; is_told(&settled, loss.told), "the senders of {number}");
}

/// Whether a run came to this: the number at which something is lost. None: a report.
fn is_told(settled: &Result<Report, RunError>, told: Option<u32>) -> bool {
    match (settled, told) {
        (Ok(_), None) => true,
        (Err(RunError::Lost(number)), Some(told)) => *number == told,
        _ => false,
    }
}

/// With all senders there the report is cut.
#[test]
fn no_lost_senders(rt: HostRuntime) {
    let alloc = rt.alloc();
    let given = make_given(&rt, alloc, PING_PONG, "");
    let plan = Plan {
        alloc,
        limit: 2,
        way: Way::WithoutSenders(None),
    };
    let report = settle_named(&rt, &given, plan).expect(&rt, "a report");
    assert!(rt; text_of(&rt, alloc, &report, &given.system).as_str() == CUT);
}

/// An instance that isn't in its slot is told.
#[test]
fn lost_instance(rt: HostRuntime) {
    let alloc = rt.alloc();
    let given = make_given(&rt, alloc, PING_PONG, "");
    for number in 1..=2 {
        let plan = Plan {
            alloc,
            limit: 50,
            way: Way::WithoutInstance(number),
        };
        let settled = settle_named(&rt, &given, plan);
        assert!(rt; is_told(&settled, Some(number)), "the instance {number}");
    }
}
