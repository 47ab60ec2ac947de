//! Scripts of their own, beside the text that has one too.

use crate::devices::Torn;
use sdl_engine::{
    Command, Names, Nobody, Notes, Options, Outcome, Serial, Source, TextFault, View, run_and_note,
};
use std::alloc::Global;
use std::io::Read;
use std::process::Abort;

static RUN: Options = Options {
    command: Command::Run,
    view: View::Trace,
    workers: None,
    limit: Options::DEFAULT_LIMIT,
};

/// What follows its specification is no script.
static TEXT: &str = "system S; signal a; process P; timer t := 3;
start; set(t); nextstate s; state s; input t; stop; endprocess; endsystem;
%script
no script
%script
";

static SCRIPT: &str = "0 a to P\n2 a to P\n7\n";

static REPORT: &str = "instance #1 P parent null
0 start
  set t 3
  nextstate s
0 discard a from env
2 discard a from env
3 input t from #1
  stop
end 7 whole
";

static BAD_SCRIPT: &str = "0 a to P\n\n0 a;\n";

static EXPLAINED: &str = "own.script:3:4: A line of a script ends without a semicolon: `0 a(1)`.
3 | 0 a;
       ^
";

/// What a run writes and notes.
#[derive(Drop)]
struct Told {
    outcome: Result<Outcome, TextFault>,
    written: Vec<u8>,
    notes: Vec<u8>,
}

/// Runs the text on a script of its own.
fn run<S: Read + Drop>(alloc: Global, script: Option<S>) -> Told {
    let mut source = Source {
        text: TEXT.as_bytes(),
        script,
    };
    let mut notes = Notes {
        writer: Vec::new(alloc),
        names: Names {
            text: "text.sdl",
            script: "own.script",
        },
        explains: true,
        failures: false,
        failed: false,
        stuck: None,
        keeps: false,
        keeps_order: false,
        run: None,
        texts: None,
    };
    let mut written = Vec::new(alloc);
    let outcome = run_and_note(
        &Serial,
        alloc,
        &mut source,
        &mut written,
        &mut notes,
        &RUN,
        Nobody,
    );
    let Notes { writer, .. } = notes;
    Told {
        outcome,
        written,
        notes: writer,
    }
}

/// A script of its own takes the place of the one in the text.
#[test]
fn reads_a_script_of_its_own(rt: HostRuntime) {
    let told = run(rt.alloc(), Some(SCRIPT.as_bytes()));
    assert!(rt; told.outcome == Ok(Outcome::Whole));
    assert!(rt; told.written.as_slice() == REPORT.as_bytes());
    assert!(rt; told.notes.is_empty());
}

/// Its lines count from 1, and an explanation names its file.
#[test]
fn counts_lines_from_its_first(rt: HostRuntime) {
    let told = run(rt.alloc(), Some(BAD_SCRIPT.as_bytes()));
    assert!(rt; told.outcome == Ok(Outcome::TextRefused));
    assert!(rt; told.written.as_slice() == b"script 3 Syntax\n".as_slice());
    assert!(rt; told.notes.as_slice() == EXPLAINED.as_bytes());
}

/// An empty one takes the place, too.
#[test]
fn takes_an_empty_script(rt: HostRuntime) {
    let told = run(rt.alloc(), Some(b"".as_slice()));
    assert!(rt; told.outcome == Ok(Outcome::Whole));
    assert!(rt; told.written.ends_with(b"rest s\nend 0 whole\n"));
}

/// Without one the script in the text counts.
#[test]
fn reads_the_script_in_the_text(rt: HostRuntime) {
    let told = run(rt.alloc(), None::<&[u8]>);
    assert!(rt; told.outcome == Ok(Outcome::TextRefused));
    assert!(rt; told.written.as_slice() == b"script 1 Syntax\n".as_slice());
}

/// One that can't be read is told, and nothing is written.
#[test]
fn tells_a_script_that_fails(rt: HostRuntime) {
    let told = run(rt.alloc(), Some(Torn { rest: b"0 a\n" }));
    assert!(rt; told.outcome == Err(TextFault::Read));
    assert!(rt; told.written.is_empty());
}
