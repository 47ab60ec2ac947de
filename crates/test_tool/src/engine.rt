//! The whole tool over readers and writers that don't do what is asked of them, and the lines of its refusals.

use crate::devices::{Hurried, Narrow, Restless, Torn, Trickle};
use sdl_build::BuildError;
use sdl_engine::{
    Command, Options, Outcome, Refusal, Serial, TextFault, View, fixed_line, refusal_line, run_text,
};
use sdl_lex::LexError;
use sdl_parse::ParseError;
use sdl_script::ScriptError;
use serial_run::RunError;
use std::alloc::Global;
use std::process::Abort;

/// The signal is discarded, and the timer expires between two lines of the script.
static TEXT: &str = "system S; signal a; process P; timer t := 3;
start; set(t); nextstate s; state s; input t; stop; endprocess; endsystem;
%script
2 a to P
7
";

static REPORT: &str = "instance #1 P parent null
0 start
  set t 3
  nextstate s
2 discard a from env
3 input t from #1
  stop
end 7 whole
";

static LINES: &str = "0 #1 P start
  set t 3
  nextstate s
2 #1 P discard a from env
3 #1 P input t from #1
  stop
end 7 whole
";

static JSON: &str = "\
    {\"at\":0,\"instance\":1,\"process\":\"P\",\"by\":\"start\",\
    \"does\":[{\"set\":\"t\",\"values\":[],\"due\":3},{\"nextstate\":\"s\"}]}\n\
    {\"at\":2,\"instance\":1,\"process\":\"P\",\"by\":\"discard\",\"signal\":\"a\",\"values\":[],\
    \"from\":\"env\",\"does\":[]}\n\
    {\"at\":3,\"instance\":1,\"process\":\"P\",\"by\":\"input\",\"signal\":\"t\",\"values\":[],\
    \"from\":\"#1\",\"does\":[{\"stop\":true}]}\n\
    {\"end\":7,\"whole\":true,\"instances\":[{\"instance\":1,\"process\":\"P\",\"parent\":null}]}\n\
";

static CANONICAL: &str = "system S ;
signal a ;
process P ;
timer t := 3 ;
start ;
set ( t ) ;
nextstate s ;
state s ;
input t ;
stop ;
endstate ;
endprocess P ;
endsystem S ;
";

static REFUSED: &str = "system S; signal a; endsystem;
%script
0 a
";

static REFUSAL: &str = "script 1 UnknownSignal\n";

static RUN: Options = Options {
    command: Command::Run,
    view: View::Trace,
    workers: None,
    limit: Options::DEFAULT_LIMIT,
};

static RUN_IN_LINES: Options = Options {
    command: Command::Run,
    view: View::Lines,
    workers: None,
    limit: Options::DEFAULT_LIMIT,
};

static RUN_IN_JSON: Options = Options {
    command: Command::Run,
    view: View::Json,
    workers: None,
    limit: Options::DEFAULT_LIMIT,
};

static CHECK: Options = Options {
    command: Command::Check,
    view: View::Trace,
    workers: None,
    limit: Options::DEFAULT_LIMIT,
};

#[test]
fn reads_and_writes_single_bytes(rt: HostRuntime) {
    expect_single_bytes(&rt, rt.alloc(), &RUN, REPORT);
    expect_single_bytes(&rt, rt.alloc(), &RUN_IN_LINES, LINES);
    expect_single_bytes(&rt, rt.alloc(), &RUN_IN_JSON, JSON);
    expect_single_bytes(&rt, rt.alloc(), &CHECK, CANONICAL);
}

fn expect_single_bytes(rt: &impl Abort, alloc: Global, options: &Options, output: &str) {
    let mut reader = Trickle {
        rest: TEXT.as_bytes(),
        interrupted: false,
    };
    let mut writer = Hurried {
        taken: Vec::new(alloc),
        interrupted: false,
    };
    let told = run_text(&Serial, alloc, &mut reader, &mut writer, options);
    assert!(rt; told == Ok(Outcome::Whole));
    assert!(rt; writer.taken.as_slice() == output.as_bytes());
}

#[test]
fn tells_a_reader_that_fails(rt: HostRuntime) {
    expect_torn(&rt, rt.alloc(), &RUN);
    expect_torn(&rt, rt.alloc(), &CHECK);
}

fn expect_torn(rt: &impl Abort, alloc: Global, options: &Options) {
    let mut written = Vec::new(alloc);
    let mut reader = Torn {
        rest: TEXT.as_bytes(),
    };
    let told = run_text(&Serial, alloc, &mut reader, &mut written, options);
    assert!(rt; told == Err(TextFault::Read));
    assert!(rt; written.is_empty());
}

/// The text takes one read, and the end of the input another.
#[test]
fn bounds_the_reads(rt: HostRuntime) {
    expect_restless(&rt, rt.alloc(), 4_194_302, Ok(Outcome::Whole));
    expect_restless(&rt, rt.alloc(), 4_194_303, Err(TextFault::Read));
    expect_restless(&rt, rt.alloc(), u32::MAX, Err(TextFault::Read));
}

/// Sees what comes of so many interruptions, and that something is written where that is no fault.
fn expect_restless(
    rt: &impl Abort,
    alloc: Global,
    interruptions: u32,
    wanted: Result<Outcome, TextFault>,
) {
    let mut reader = Restless {
        interruptions,
        rest: TEXT.as_bytes(),
    };
    let mut written = Vec::new(alloc);
    let told = run_text(&Serial, alloc, &mut reader, &mut written, &RUN);
    assert!(rt; told == wanted);
    assert!(rt; written.is_empty() == wanted.is_err());
}

#[test]
fn tells_a_writer_that_fails(rt: HostRuntime) {
    expect_narrow_writers(&rt, rt.alloc(), &RUN, TEXT, REPORT);
    expect_narrow_writers(&rt, rt.alloc(), &RUN_IN_LINES, TEXT, LINES);
    expect_narrow_writers(&rt, rt.alloc(), &RUN_IN_JSON, TEXT, JSON);
    expect_narrow_writers(&rt, rt.alloc(), &CHECK, TEXT, CANONICAL);
    expect_narrow_writers(&rt, rt.alloc(), &RUN, REFUSED, REFUSAL);
}

/// How much a writer takes, and whether it fails then.
static ROOMS: [(usize, bool); 4] = [(0, true), (0, false), (20, true), (20, false)];

fn expect_narrow_writers(
    rt: &impl Abort,
    alloc: Global,
    options: &Options,
    text: &str,
    output: &str,
) {
    for (room, fails) in &ROOMS {
        let writer = Narrow {
            taken: Vec::new(alloc),
            room: *room,
            fails: *fails,
        };
        expect_beginning(rt, alloc, options, text, output, writer);
    }
}

/// Sees that the fault of a writer is told, and that it took the beginning of the output that it has room for.
fn expect_beginning(
    rt: &impl Abort,
    alloc: Global,
    options: &Options,
    text: &str,
    output: &str,
    mut writer: Narrow,
) {
    let room = writer.room;
    let mut reader = text.as_bytes();
    let told = run_text(&Serial, alloc, &mut reader, &mut writer, options);
    assert!(rt; told == Err(TextFault::Write));
    assert!(rt; writer.taken.len() == room);
    assert!(rt;
        output.as_bytes().starts_with(writer.taken.as_slice()),
        "at {room}"
    );
}

#[test]
fn has_lines_that_need_no_memory(rt: HostRuntime) {
    let alloc = rt.alloc();
    let too_long = ParseError::Lex(LexError::TooLong);
    expect_fixed_line(&rt, alloc, Refusal::Parse(too_long), "lex 1:1 TooLong\n");
    let memory = ParseError::Lex(LexError::Memory);
    expect_fixed_line(&rt, alloc, Refusal::Parse(memory), "lex Memory\n");
    expect_fixed_line(
        &rt,
        alloc,
        Refusal::Parse(ParseError::Memory),
        "parse Memory\n",
    );
    expect_fixed_line(
        &rt,
        alloc,
        Refusal::Build(BuildError::Memory),
        "build Memory\n",
    );
    expect_fixed_line(
        &rt,
        alloc,
        Refusal::Script(ScriptError::Memory),
        "script Memory\n",
    );
    expect_fixed_line(&rt, alloc, Refusal::Run(RunError::Memory), "run Memory\n");
}

#[test]
fn has_lines_that_are_made(rt: HostRuntime) {
    let alloc = rt.alloc();
    let syntax = Refusal::Script(ScriptError::Syntax(12));
    expect_made_line(&rt, alloc, syntax, "script 12 Syntax\n");
    let back = Refusal::Script(ScriptError::BackInTime(3));
    expect_made_line(&rt, alloc, back, "script 3 BackInTime\n");
    let lost = Refusal::Run(RunError::Lost(7));
    expect_made_line(&rt, alloc, lost, "run Lost #7\n");
}

/// Sees that a refusal has this line, with memory and without.
fn expect_fixed_line(rt: &impl Abort, alloc: Global, refusal: Refusal, line: &str) {
    assert!(rt; fixed_line(&refusal) == Some(line));
    expect_line(rt, alloc, &refusal, line);
}

/// Sees that a refusal has this line, and only with memory.
fn expect_made_line(rt: &impl Abort, alloc: Global, refusal: Refusal, line: &str) {
    assert!(rt; fixed_line(&refusal).is_none());
    expect_line(rt, alloc, &refusal, line);
}

fn expect_line(rt: &impl Abort, alloc: Global, refusal: &Refusal, line: &str) {
    let told = refusal_line(alloc, refusal).expect(rt, "memory");
    assert!(rt; told.as_str() == line);
}
