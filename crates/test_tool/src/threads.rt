//! Runs on worker threads through the whole tool: what every schedule has, where the text is the schedule's own.

use crate::devices::Narrow;
use sdl_engine::{Command, Options, Outcome, TextFault, Threaded, View, run_text};
use std::alloc::Global;
use std::process::Abort;
use std::sync::Wait;
use std::thread::Threads;

/// Two instances that send each other a signal, for ever.
static PING_PONG: &str = "system S; signal x, y;
process A; start; output x; nextstate s; state s; input y; output x; nextstate -; endprocess;
process B; start; nextstate s; state s; input x; output y; nextstate -; endprocess;
endsystem;
";

/// How many workers a run is tried with.
static WORKERS: [u8; 5] = [1, 2, 3, 4, 16];

#[test]
fn cuts_at_the_limit(rt: HostRuntime) {
    for workers in &WORKERS {
        expect_cut(&rt, rt.alloc(), *workers);
    }
}

/// Sees that a run is cut with as many transitions as its limit, or more.
fn expect_cut<R: Threads + Wait + Copy + Send + Sync + Abort>(rt: &R, alloc: Global, workers: u8) {
    let options = Options {
        command: Command::Run,
        view: View::Trace,
        workers: Some(workers),
        limit: 50,
    };
    let mut written = Vec::new(alloc);
    let told = run_text(
        &Threaded::new(rt),
        alloc,
        &mut PING_PONG.as_bytes(),
        &mut written,
        &options,
    );
    assert!(rt; told == Ok(Outcome::Cut), "{workers} workers");
    assert!(rt; transitions(written.as_slice()) >= 50, "{workers} workers");
}

/// How many transitions a report has: the lines that begin with a time.
fn transitions(report: &[u8]) -> usize {
    report
        .split(|byte| *byte == b'\n')
        .filter(|line| line.first().is_some_and(|byte| byte.is_ascii_digit()))
        .count()
}

/// A closed pipe, and others that take no more: of a short report, and of a long one, whose text several threads make.
/// The limit, the room, and whether the writer fails.
static ROOMS: [(u64, usize, bool); 8] = [
    (50, 0, true),
    (50, 0, false),
    (50, 20, true),
    (50, 20, false),
    (2_000, 0, true),
    (2_000, 0, false),
    (2_000, 40_000, true),
    (2_000, 40_000, false),
];

#[test]
fn tells_a_writer_that_fails(rt: HostRuntime) {
    for (limit, room, fails) in &ROOMS {
        expect_write_fault(&rt, rt.alloc(), *limit, *room, *fails);
    }
}

/// Sees that the fault of a writer is told once the threads are joined, and that no more than it has room for went out.
fn expect_write_fault<R: Threads + Wait + Copy + Send + Sync + Abort>(
    rt: &R,
    alloc: Global,
    limit: u64,
    room: usize,
    fails: bool,
) {
    let options = Options {
        command: Command::Run,
        view: View::Trace,
        workers: Some(4),
        limit,
    };
    let mut writer = Narrow {
        taken: Vec::new(alloc),
        room,
        fails,
    };
    let told = run_text(
        &Threaded::new(rt),
        alloc,
        &mut PING_PONG.as_bytes(),
        &mut writer,
        &options,
    );
    assert!(rt; told == Err(TextFault::Write));
    assert!(rt; writer.taken.len() == room);
}

/// Instances whose reports are long, and the same whatever the schedule: three; one, whose text takes several rounds; one
/// after three others that stop at once.
static LONG: [&str; 3] = [
    "system S; process P (3); dcl n Integer := 0; start; nextstate s;
state s; provided n < 1000; task n := n + 1; nextstate -; endprocess; endsystem;
",
    "system S; process P; dcl n Integer := 0; start; nextstate s;
state s; provided n < 50000; task n := n + 1; nextstate -; endprocess; endsystem;
",
    "system S; process Q (3); start; stop; endprocess;
process P; dcl n Integer := 0; start; nextstate s;
state s; provided n < 2000; task n := n + 1; nextstate -; endprocess; endsystem;
",
];

/// How many workers they are tried with.
static MAKERS: [u8; 2] = [2, 4];

#[test]
fn makes_the_serial_text(rt: HostRuntime) {
    for text in &LONG {
        expect_serial_text(&rt, rt.alloc(), text);
    }
}

/// Sees that the report of a run with workers is that of the serial run.
fn expect_serial_text<R: Threads + Wait + Copy + Send + Sync + Abort>(
    rt: &R,
    alloc: Global,
    text: &str,
) {
    let serial = report(rt, alloc, text, None);
    for workers in &MAKERS {
        let threaded = report(rt, alloc, text, Some(*workers));
        assert!(rt;
            threaded.as_slice() == serial.as_slice(),
            "{workers} workers"
        );
    }
}

/// The report of a run, which is whole.
fn report<R: Threads + Wait + Copy + Send + Sync + Abort>(
    rt: &R,
    alloc: Global,
    text: &str,
    workers: Option<u8>,
) -> Vec<u8> {
    let options = Options {
        command: Command::Run,
        view: View::Trace,
        workers,
        limit: Options::DEFAULT_LIMIT,
    };
    let mut written = Vec::new(alloc);
    let told = run_text(
        &Threaded::new(rt),
        alloc,
        &mut text.as_bytes(),
        &mut written,
        &options,
    );
    assert!(rt; told == Ok(Outcome::Whole));
    written
}

/// A check has no use for workers, and a text that is refused starts none.
#[test]
fn checks_and_refuses_all_the_same(rt: HostRuntime) {
    let canonical = b"system S ;\nsignal a ;\nendsystem S ;\n";
    expect_text(
        &rt,
        rt.alloc(),
        Command::Check,
        "system S; signal a; endsystem;",
        Outcome::Whole,
        canonical,
    );
    expect_text(
        &rt,
        rt.alloc(),
        Command::Run,
        "system S; signal a, a; endsystem;",
        Outcome::TextRefused,
        b"build 1:21 Duplicate a\n",
    );
}

/// Sees what a command with workers answers to a text.
fn expect_text<R: Threads + Wait + Copy + Send + Sync + Abort>(
    rt: &R,
    alloc: Global,
    command: Command,
    text: &str,
    outcome: Outcome,
    output: &[u8],
) {
    let options = Options {
        command,
        view: View::Trace,
        workers: Some(2),
        limit: Options::DEFAULT_LIMIT,
    };
    let mut written = Vec::new(alloc);
    let told = run_text(
        &Threaded::new(rt),
        alloc,
        &mut text.as_bytes(),
        &mut written,
        &options,
    );
    assert!(rt; told == Ok(outcome));
    assert!(rt; written.as_slice() == output);
}
