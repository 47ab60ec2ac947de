//! What is expected of a run, and what it sent.

use sdl_command_line::{by_sender, difference_text, first_difference, lines_of, sent_signals};
use sdl_engine::{Command, Names, Nobody, Notes, Options, Run, Serial, Source, View, run_and_note};
use std::alloc::Global;
use std::process::Abort;

/// A wanted text, another one, and what is shown of their first difference, if there is one.
static TEXTS: [(&str, &str, Option<&str>); 9] = [
    ("", "", None),
    ("a\nb", "a\nb", None),
    ("a\nb\n", "a\nb\n", None),
    ("a\nb\n", "a\nc\n", Some("x\n  a\n- b\n+ c\n")),
    ("", "a\n", Some("x\n- (the end)\n+ a\n")),
    ("a", "a\n", Some("x\n- a (without a line end)\n+ a\n")),
    (
        "1\n2\n3\n4\n5\n",
        "1\n2\n3\n4\n",
        Some("x\n  2\n  3\n  4\n- 5\n+ (the end)\n"),
    ),
    ("a\n\nb\n", "a\nb\n", Some("x\n  a\n- \n+ b\n")),
    ("\x1b[1m\t~\n", "\u{7f}\n", Some("x\n- ?[1m\t~\n+ ?\n")),
];

#[test]
fn shows_the_first_difference(rt: HostRuntime) {
    let alloc = rt.alloc();
    for (wanted, told, shown) in &TEXTS {
        let wanted_lines = lines_of(alloc, wanted.as_bytes()).expect(&rt, "memory");
        let told_lines = lines_of(alloc, told.as_bytes()).expect(&rt, "memory");
        let found = first_difference(&wanted_lines, &told_lines);
        match (&found, shown) {
            (None, None) => {}
            (Some(found), Some(shown)) => {
                let text = difference_text(alloc, "x", found).expect(&rt, "memory");
                assert!(rt; text.as_slice() == shown.as_bytes(), "{wanted:?} {told:?}");
            }
            _ => assert!(rt; false, "{wanted:?} {told:?}"),
        }
    }
}

static RUN: Options = Options {
    command: Command::Run,
    view: View::Trace,
    workers: None,
    limit: Options::DEFAULT_LIMIT,
};

/// #2 sends to the environment before #1 does, and #1 sends to #2, too.
static TEXT: &str = "system S; signal a, b(Integer, Boolean), c;
process P; start; nextstate s; state s; input a; output c; output b(1, true); nextstate -; endstate s; endprocess P;
process Q; start; output b(2, false); nextstate s; state s; input c; output b(3, true); nextstate -; endstate s;
endprocess Q; endsystem S;
%script
4 a
7 a
";

const SERIAL: &str = "0 b(2,false) from #2
4 b(1,true) from #1
4 b(3,true) from #2
7 b(1,true) from #1
7 b(3,true) from #2
";

const SINGLE: &str = "4 b(1,true) from #1
7 b(1,true) from #1
0 b(2,false) from #2
4 b(3,true) from #2
7 b(3,true) from #2
";

/// Texts, and their lines by sender.
static ARRANGED: [(&str, &str); 4] = [
    ("", ""),
    (SERIAL, SINGLE),
    (
        "x from #10\ny from #9\n\nz\nv from #9\n",
        "\nz\ny from #9\nv from #9\nx from #10\n",
    ),
    (
        "x from #4294967296\ny from #4294967295\n",
        "x from #4294967296\ny from #4294967295\n",
    ),
];

#[test]
fn sends_in_order_or_by_sender(rt: HostRuntime) {
    let alloc = rt.alloc();
    let run = run_of(&rt, alloc);
    let serial = sent_signals(alloc, &run, false).expect(&rt, "memory");
    assert!(rt;
        serial.text.as_str() == SERIAL && serial.stuck.is_none(),
        "{}",
        serial.text
    );
    let single = sent_signals(alloc, &run, true).expect(&rt, "memory");
    assert!(rt;
        single.text.as_str() == SINGLE && single.stuck.is_none(),
        "{}",
        single.text
    );
}

#[test]
fn arranges_lines_by_sender(rt: HostRuntime) {
    let alloc = rt.alloc();
    for (text, wanted) in &ARRANGED {
        let lines = lines_of(alloc, text.as_bytes()).expect(&rt, "memory");
        let arranged = by_sender(lines).expect(&rt, "memory");
        let wanted = lines_of(alloc, wanted.as_bytes()).expect(&rt, "memory");
        assert!(rt; first_difference(&wanted, &arranged).is_none(), "{text}");
    }
}

/// The run of the text.
fn run_of(rt: &impl Abort, alloc: Global) -> Run {
    let mut source = Source {
        text: TEXT.as_bytes(),
        script: None::<&[u8]>,
    };
    let mut notes = Notes {
        writer: Vec::new(alloc),
        names: Names {
            text: Names::STANDARD_INPUT,
            script: Names::STANDARD_INPUT,
        },
        explains: false,
        failures: false,
        failed: false,
        stuck: None,
        keeps: true,
        keeps_order: true,
        run: None,
        texts: None,
    };
    let mut written = Vec::new(alloc);
    let _ = run_and_note(
        &Serial,
        alloc,
        &mut source,
        &mut written,
        &mut notes,
        &RUN,
        Nobody,
    );
    notes.run.expect(rt, "a run")
}
