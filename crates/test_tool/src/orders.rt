//! The order of a run through the whole tool: what each order has, whatever the schedule.

use sdl_command_line::{Form, draw};
use sdl_engine::{
    Command, Names, Nobody, Notes, Options, Outcome, Source, TextFault, Threaded, View,
    run_and_note,
};
use std::alloc::Global;
use std::process::Abort;
use std::sync::Wait;
use std::thread::Threads;
use view_chart::Selection;

/// Three ask one at the same time, again and again, and stop before the last answer comes.
static TEXT: &str = "system S; signal a, b;
process A (3, 3); dcl n Integer := 0; start; output a to B; nextstate s;
state s; input b; task n := n + 1; output a to B;
decision n < 20; (true): nextstate -; else: stop; enddecision; endstate s; endprocess;
process B; start; nextstate s; state s; input a; output b to sender; nextstate -; endstate s; endprocess;
endsystem;
";

/// How many lines of its order end so.
static LINES: [(&str, usize); 10] = [
    (" start", 4),
    (" input a from #1", 21),
    (" input a from #2", 21),
    (" input a from #3", 21),
    (" input b from #4", 60),
    ("  output a to #4", 63),
    ("  stop", 3),
    (" gone", 3),
    ("#4 B rest s", 1),
    ("end 0 whole", 1),
];

/// How many events it has.
const EVENTS: usize = 440;

/// How many workers a run is tried with, how often. None: it is serial.
static WORKERS: [Option<u8>; 5] = [None, Some(1), Some(2), Some(4), Some(16)];

const ROUNDS: usize = 10;

#[test]
fn tells_each_event_once(rt: HostRuntime) {
    for workers in &WORKERS {
        for _ in 0..ROUNDS {
            expect_lines(&rt, rt.alloc(), *workers);
        }
    }
}

/// Sees that the order of a run by so many workers is known to its end, and that each of its lines is there.
fn expect_lines<R: Abort + Wait + Threads + Sync>(rt: &R, alloc: Global, workers: Option<u8>) {
    let mut written = Vec::new(alloc);
    let notes = told(rt, alloc, View::Lines, workers, false, &mut written);
    let workers = workers.unwrap_or(0);
    assert!(rt; notes.stuck.is_none(), "{workers} workers");
    for (end, count) in &LINES {
        let found = lines_ending(&written, end);
        assert!(rt; found == *count, "{workers} workers: {found} of {end}");
    }
    // Behind the events there are the rest of #4, the end, and nothing.
    let others = lines_ending(&written, "").saturating_sub(3);
    let parts = lines_ending(&written, " goes on");
    assert!(rt; others == EVENTS.saturating_add(parts), "{workers} workers");
}

#[test]
fn tells_it_as_json(rt: HostRuntime) {
    for workers in &WORKERS {
        let mut written = Vec::new(rt.alloc());
        let notes = told(&rt, rt.alloc(), View::Json, *workers, false, &mut written);
        assert!(rt; notes.stuck.is_none());
    }
}

/// A chart needs what the run keeps for its order.
#[test]
fn draws_it_where_its_order_is_kept(rt: HostRuntime) {
    for keeps_order in [false, true] {
        expect_drawn(&rt, rt.alloc(), None, keeps_order);
        expect_drawn(&rt, rt.alloc(), Some(4), keeps_order);
    }
}

/// Sees that a run by so many workers is drawn just if what tells its order is kept.
fn expect_drawn<R: Abort + Wait + Threads + Sync>(
    rt: &R,
    alloc: Global,
    workers: Option<u8>,
    keeps_order: bool,
) {
    let mut written = Vec::new(alloc);
    let notes = told(rt, alloc, View::Trace, workers, keeps_order, &mut written);
    let run = notes.run.as_ref().expect(rt, "a run");
    let all = Selection {
        only: Vec::new(alloc),
        from: None,
        until: None,
    };
    let mut chart = Vec::new(alloc);
    let drawn = draw(alloc, run, Form::Msc, &all, &mut chart);
    let wanted = if keeps_order {
        Ok(None)
    } else {
        Err(TextFault::Memory)
    };
    assert!(rt; drawn == wanted);
    assert!(rt; chart.is_empty() == !keeps_order);
}

/// The notes of a run by so many workers, which is whole and kept. What is told of it is written.
fn told<R: Abort + Wait + Threads + Sync>(
    rt: &R,
    alloc: Global,
    view: View,
    workers: Option<u8>,
    keeps_order: bool,
    written: &mut Vec<u8>,
) -> Notes<'static, Vec<u8>> {
    let options = Options {
        command: Command::Run,
        view,
        workers,
        limit: Options::DEFAULT_LIMIT,
    };
    let mut source = Source {
        text: TEXT.as_bytes(),
        script: None::<&[u8]>,
    };
    let mut notes = silent_notes(alloc);
    notes.keeps_order = keeps_order;
    let outcome = run_and_note(
        &Threaded::new(rt),
        alloc,
        &mut source,
        written,
        &mut notes,
        &options,
        Nobody,
    );
    assert!(rt; outcome == Ok(Outcome::Whole));
    notes
}

/// Notes that keep a run.
fn silent_notes(alloc: Global) -> Notes<'static, Vec<u8>> {
    Notes {
        writer: Vec::new(alloc),
        names: Names {
            text: Names::STANDARD_INPUT,
            script: Names::STANDARD_INPUT,
        },
        explains: false,
        failures: false,
        failed: false,
        stuck: None,
        keeps: true,
        keeps_order: false,
        run: None,
        texts: None,
    }
}

/// How many lines of a text end so.
fn lines_ending(text: &[u8], end: &str) -> usize {
    let mut count = 0usize;
    for line in text.split(|byte| *byte == b'\n') {
        if line.ends_with(end.as_bytes()) {
            count = count.saturating_add(1);
        }
    }
    count
}
