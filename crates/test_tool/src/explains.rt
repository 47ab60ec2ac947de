//! What a human is told of a refusal, beside its line.

use crate::devices::Narrow;
use sdl_engine::{
    Command, Names, Nobody, Notes, Options, Outcome, Serial, Source, TextFault, View, run_and_note,
};
use std::alloc::Global;
use std::process::Abort;

static CHECK: Options = Options {
    command: Command::Check,
    view: View::Trace,
    workers: None,
    limit: Options::DEFAULT_LIMIT,
};

static TWICE: &str = "system S;\nsignal a;\n\tsignal b,\ta;\nendsystem;\n";

static TWICE_EXPLAINED: &str =
    "twice.sdl:3:12: `a` is defined in this scope already. Give one of the two another name, or take one away.
3 | \tsignal b,\ta;
    \t         \t^
twice.sdl:2:8: It is defined first here:
2 | signal a;
           ^
";

static BAD_LINE: &str = "system S; signal a; endsystem;\n%script\n0\n 7 a\n";

/// The line is the fourth of the file, and the second of the script.
static BAD_LINE_EXPLAINED: &str =
    "twice.sdl:4:4: `a` reaches no process: no channel carries it from `env`, and where there \
are no channels, no process names it. Name it after `with` in a channel from `env`, or name a process: `0 a to P`.
4 |  7 a
       ^
";

/// Notes that explain refusals to a writer.
fn explaining<N>(writer: N) -> Notes<'static, N> {
    Notes {
        writer,
        names: Names {
            text: "twice.sdl",
            script: "own.script",
        },
        explains: true,
        failures: false,
        failed: false,
        stuck: None,
        keeps: false,
        keeps_order: false,
        run: None,
        texts: None,
    }
}

#[test]
fn shows_both_definitions(rt: HostRuntime) {
    expect_notes(&rt, rt.alloc(), TWICE, TWICE_EXPLAINED);
}

#[test]
fn shows_a_line_of_the_script(rt: HostRuntime) {
    expect_notes(&rt, rt.alloc(), BAD_LINE, BAD_LINE_EXPLAINED);
}

/// Sees that a text is refused, and that this is what a human is told of it.
fn expect_notes(rt: &impl Abort, alloc: Global, text: &str, explained: &str) {
    let mut source = Source {
        text: text.as_bytes(),
        script: None::<&[u8]>,
    };
    let mut written = Vec::new(alloc);
    let mut notes = explaining(Vec::new(alloc));
    let told = run_and_note(
        &Serial,
        alloc,
        &mut source,
        &mut written,
        &mut notes,
        &CHECK,
        Nobody,
    );
    assert!(rt; told == Ok(Outcome::TextRefused));
    assert!(rt; notes.writer.as_slice() == explained.as_bytes());
}

fn run(
    alloc: Global,
    text: &str,
    limit: u64,
    notes: &mut Notes<'_, Vec<u8>>,
) -> Result<Outcome, TextFault> {
    let options = Options {
        command: Command::Run,
        view: View::Trace,
        workers: None,
        limit,
    };
    let mut source = Source {
        text: text.as_bytes(),
        script: None::<&[u8]>,
    };
    let mut written = Vec::new(alloc);
    run_and_note(
        &Serial,
        alloc,
        &mut source,
        &mut written,
        notes,
        &options,
        Nobody,
    )
}

static LOOP: &str =
    "system S; process P; start; nextstate s; state s; provided true; nextstate -; endprocess; endsystem;\n";

static CUT: &str = "sdlrun: cut after 5 transitions; the clock never moved; --limit shows less\n";

static CUT_AT_ONE: &str =
    "sdlrun: cut after 1 transition; the clock never moved; --limit shows less\n";

#[test]
fn tells_what_cut_a_run(rt: HostRuntime) {
    let mut notes = explaining(Vec::new(rt.alloc()));
    let told = run(rt.alloc(), LOOP, 5, &mut notes);
    assert!(rt; told == Ok(Outcome::Cut));
    assert!(rt; notes.writer.as_slice() == CUT.as_bytes());
    let mut notes = explaining(Vec::new(rt.alloc()));
    let _ = run(rt.alloc(), LOOP, 1, &mut notes);
    assert!(rt; notes.writer.as_slice() == CUT_AT_ONE.as_bytes());
}

/// The line of the refusal is told all the same.
#[test]
fn goes_on_where_nothing_can_be_noted(rt: HostRuntime) {
    let mut source = Source {
        text: TWICE.as_bytes(),
        script: None::<&[u8]>,
    };
    let mut written = Vec::new(rt.alloc());
    let mut notes = explaining(Narrow {
        taken: Vec::new(rt.alloc()),
        room: 4,
        fails: true,
    });
    let told = run_and_note(
        &Serial,
        rt.alloc(),
        &mut source,
        &mut written,
        &mut notes,
        &CHECK,
        Nobody,
    );
    assert!(rt; told == Ok(Outcome::TextRefused));
    assert!(rt; written.as_slice() == b"build 3:12 Duplicate a\n".as_slice());
}
