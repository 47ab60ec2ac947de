//! Rows that have one text whatever the schedule is.

ghost use Rattle.std.specs.Prelude.{All};
ghost use Rattle.sdl_script.specs.Script.{SendsFromEnv};

use crate::given::{Given, lines_with, make_given, serial_text, text_with};
use crate::texts::{CHAIN, MADE_UP, PING_PONG, Row, SIBLINGS, THOUSAND};
use sdl_workers::Open;
use std::alloc::Global;
use std::process::Abort;
use std::sync::Wait;
use std::thread::Threads;

/// With how many workers a row is run.
static WORKERS: [usize; 4] = [1, 2, 4, 16];

/// How often a row is run with each number of workers: with all of them together 60 times.
const ROUNDS: u32 = 15;

/// How often the row of a thousand instances is run. Its settling takes longest.
const LONG_ROUNDS: u32 = 10;

/// A limit that no row reaches which comes to its end.
const LIMIT: u64 = 1_000_000;

/// The limit of the row that goes on for ever.
const CUT: u64 = 50;

/// A chain of instances: one at a time can act.
#[test]
fn chain(rt: HostRuntime) {
    expect_row(&rt, rt.alloc(), &CHAIN);
}

/// One sends to another whose number it has from their parent.
#[test]
fn siblings(rt: HostRuntime) {
    expect_row(&rt, rt.alloc(), &SIBLINGS);
}

/// A Pid that the script makes up is sent to before an instance has it, and after: what is sent before is gone.
#[test]
fn a_pid_that_the_script_makes_up(rt: HostRuntime) {
    expect_row(&rt, rt.alloc(), &MADE_UP);
}

/// Sees that a row has its text serially, and with each number of workers.
fn expect_row<R: Threads + Wait + Abort + Copy + Send + Sync>(rt: &R, alloc: Global, row: &Row) {
    let given = make_given(rt, alloc, row.specification, row.script);
    assert!(rt;
        serial_text(rt, alloc, &given, LIMIT).as_str() == row.report,
        "serially"
    );
    for workers in &WORKERS {
        expect_text(rt, alloc, &given, *workers, ROUNDS, row.report);
    }
}

/// Sees that each of so many runs with so many workers has this text.
fn expect_text<R: Threads + Wait + Abort + Copy + Send + Sync>(
    rt: &R,
    alloc: Global,
    given: &Given,
    workers: usize,
    rounds: u32,
    wanted: &str,
)
    requires { All (SendsFromEnv given.now.system) given.now.script.lines.items }
{
    for _ in 0..rounds {
        let text = text_with(rt, alloc, given, workers, LIMIT, &Open);
        assert!(rt; text.as_str() == wanted, "{workers} workers: {text}");
    }
}

/// As many instances are created as there are numbers, and one create more gives null.
#[test]
fn thousand(rt: HostRuntime) {
    let alloc = rt.alloc();
    let given = make_given(&rt, alloc, THOUSAND, "");
    let serial = serial_text(&rt, alloc, &given, LIMIT);
    let report = serial.as_str();
    assert!(rt; lines_with(report, "instance ") == 1_000);
    assert!(rt; lines_with(report, "  create Q #") == 999);
    assert!(rt; lines_with(report, "  create Q null") == 1);
    assert!(rt; lines_with(report, "  stop") == 999);
    assert!(rt; lines_with(report, "end 0 whole") == 1);
    expect_text(&rt, alloc, &given, 4, LONG_ROUNDS, report);
}

/// Two send each other a signal for ever. The run is cut.
#[test]
fn ping_pong(rt: HostRuntime) {
    let alloc = rt.alloc();
    let given = make_given(&rt, alloc, PING_PONG, "");
    for workers in &WORKERS {
        expect_cut(&rt, alloc, &given, *workers);
    }
}

/// Sees that a run is cut with as many transitions as its limit, or more, each time. One instance at a time can act, so
/// the text is that of the serial run that is cut with just as many.
fn expect_cut<R: Threads + Wait + Abort + Copy + Send + Sync>(
    rt: &R,
    alloc: Global,
    given: &Given,
    workers: usize,
)
    requires { All (SendsFromEnv given.now.system) given.now.script.lines.items }
{
    for _ in 0..ROUNDS {
        let text = text_with(rt, alloc, given, workers, CUT, &Open);
        let transitions = lines_with(text.as_str(), "0 ") as u64;
        assert!(rt;
            transitions >= CUT,
            "{workers} workers: {transitions} transitions"
        );
        let serial = serial_text(rt, alloc, given, transitions);
        assert!(rt;
            text.as_str() == serial.as_str(),
            "{workers} workers: {text}"
        );
    }
}
