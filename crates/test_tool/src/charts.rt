//! Charts of runs that the whole tool has made.

use crate::devices::Narrow;
use sdl_command_line::{Form, draw};
use sdl_engine::{
    Command, Names, Nobody, Notes, Options, Serial, Source, TextFault, View, run_and_note,
};
use std::alloc::Global;
use std::process::Abort;
use view_chart::Selection;

static RUN: Options = Options {
    command: Command::Run,
    view: View::Trace,
    workers: None,
    limit: Options::DEFAULT_LIMIT,
};

static TEXT: &str = "system S; signal a; process P; start; output a to self; nextstate s;
state s; input a; stop; endprocess; endsystem;
";

static REFUSED: &str = "system S; signal a, a; endsystem;\n";

static MSC: &str = "msc S;
inst P_1: process P;
P_1: instance process P; condition start comment 'at 0'; out a,m1 to P_1; condition s;
P_1: in a,m1 from P_1 comment 'at 0'; stop;
endmsc; /* end 0 whole */
";

/// What is kept of a text for those who draw it.
fn notes(alloc: Global, text: &str, keeps: bool) -> Notes<'static, Vec<u8>> {
    let mut source = Source {
        text: text.as_bytes(),
        script: None::<&[u8]>,
    };
    let mut notes = Notes {
        writer: Vec::new(alloc),
        names: Names {
            text: Names::STANDARD_INPUT,
            script: Names::STANDARD_INPUT,
        },
        explains: false,
        failures: false,
        failed: false,
        stuck: None,
        keeps,
        keeps_order: true,
        run: None,
        texts: None,
    };
    let mut written = Vec::new(alloc);
    let _ = run_and_note(
        &Serial,
        alloc,
        &mut source,
        &mut written,
        &mut notes,
        &RUN,
        Nobody,
    );
    notes
}

fn all(alloc: Global) -> Selection {
    Selection {
        only: Vec::new(alloc),
        from: None,
        until: None,
    }
}

#[test]
fn keeps_a_run_where_asked(rt: HostRuntime) {
    assert!(rt; notes(rt.alloc(), TEXT, true).run.is_some());
    assert!(rt; notes(rt.alloc(), TEXT, false).run.is_none());
    assert!(rt; notes(rt.alloc(), REFUSED, true).run.is_none());
}

#[test]
fn draws_each_form(rt: HostRuntime) {
    expect_chart(&rt, rt.alloc(), Form::Svg, "<svg ", "</svg>\n");
    expect_chart(
        &rt,
        rt.alloc(),
        Form::Html,
        "<!DOCTYPE html>\n",
        "</html>\n",
    );
    expect_chart(&rt, rt.alloc(), Form::Msc, MSC, MSC);
}

/// Sees how a chart begins and ends.
fn expect_chart(rt: &impl Abort, alloc: Global, form: Form, first: &str, last: &str) {
    let notes = notes(alloc, TEXT, true);
    let run = notes.run.as_ref().expect(rt, "a run");
    let mut written = Vec::new(alloc);
    let told = draw(alloc, run, form, &all(alloc), &mut written);
    assert!(rt; told == Ok(None));
    assert!(rt; written.starts_with(first.as_bytes()));
    assert!(rt; written.ends_with(last.as_bytes()));
}

#[test]
fn tells_a_file_that_fails(rt: HostRuntime) {
    expect_fault(&rt, rt.alloc(), Form::Svg);
    expect_fault(&rt, rt.alloc(), Form::Html);
    expect_fault(&rt, rt.alloc(), Form::Msc);
}

/// Sees that the fault of a writer is told.
fn expect_fault(rt: &impl Abort, alloc: Global, form: Form) {
    let notes = notes(alloc, TEXT, true);
    let run = notes.run.as_ref().expect(rt, "a run");
    let mut writer = Narrow {
        taken: Vec::new(alloc),
        room: 20,
        fails: true,
    };
    let told = draw(alloc, run, form, &all(alloc), &mut writer);
    assert!(rt; told == Err(TextFault::Write));
    assert!(rt; writer.taken.len() == 20);
}
