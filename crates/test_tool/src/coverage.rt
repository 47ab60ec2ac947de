//! What a run covered that the whole tool has made.

use crate::covered::COVERED;
use crate::devices::Narrow;
use sdl_command_line::{ToldRun, cover, draw};
use sdl_engine::{
    Command, Names, Nobody, Notes, Options, Outcome, Serial, Source, TextFault, Threaded, View,
    run_and_note,
};
use std::alloc::Global;
use std::process::Abort;
use std::sync::Wait;
use std::thread::Threads;
use view_chart::Selection;
use view_coverage::Form;

static TEXT: &str = "system S; signal a, b; process P; dcl n Integer := 0;
start; nextstate s;
state s;
input a;
task n := n + 1;
decision n; (1, 2): nextstate -;
else: nextstate t; enddecision;
input b; nextstate -;
state t, u;
input b; nextstate u;
endprocess; endsystem;
%script
0 a
0 a
0 b
1 a
";

/// What the run covered: `b` came in `s` alone, so `u` was never entered.
static PLAIN: &str = "never: 2 of 6
  10:7  P  in t             input b
  10:7  P  in u             input b
never entered: 1 of 3 states
  9:10  P  in u             entered
P: states 2 of 3, stimuli 2 of 4, answers 2 of 2
  3:7   in s             entered  4
  4:7   in s             input a  3
  6:13  decision of 6:1  (1, 2)   2
  7:1   decision of 6:1  else     1
  8:7   in s             input b  1
  9:7   in t             entered  1
  9:10  in u             entered  0
  10:7  in t             input b  0
  10:7  in u             input b  0
";

/// The same as a tracefile. A line is of a stimulus or of a decision. The file's name has an end of line in it.
static TRACEFILE: &str = "TN:
SF:so?me.sdl
BRDA:4,7,0,3
BRDA:6,1,0,2
BRDA:6,1,1,1
BRDA:8,7,0,1
BRDA:10,7,1,0
BRDA:10,7,2,0
BRF:6
BRH:4
DA:4,3
DA:6,3
DA:8,1
DA:10,0
LF:4
LH:3
end_of_record
";

/// With workers it isn't known which answers were taken, so nothing is said of them.
static ON_THREADS: &str = "never: 2 of 4
  10:7  P  in t  input b
  10:7  P  in u  input b
never entered: 1 of 3 states
  9:10  P  in u  entered
answers of decisions: not known of a run with workers
P: states 2 of 3, stimuli 2 of 4
  3:7   in s  entered  4
  4:7   in s  input a  3
  8:7   in s  input b  1
  9:7   in t  entered  1
  9:10  in u  entered  0
  10:7  in t  input b  0
  10:7  in u  input b  0
";

/// The same after two transitions: the start, and the first `a`.
static AFTER_TWO: &str = "never: 4 of 6
  7:1   P  decision of 6:1  else
  8:7   P  in s             input b
  10:7  P  in t             input b
  10:7  P  in u             input b
never entered: 2 of 3 states
  9:7   P  in t             entered
  9:10  P  in u             entered
P: states 1 of 3, stimuli 1 of 4, answers 1 of 2
  3:7   in s             entered  2
  4:7   in s             input a  1
  6:13  decision of 6:1  (1, 2)   1
  7:1   decision of 6:1  else     0
  8:7   in s             input b  0
  9:7   in t             entered  0
  9:10  in u             entered  0
  10:7  in t             input b  0
  10:7  in u             input b  0
";

static REFUSED: &str = "system S; signal a, a; endsystem;\n";

static SERIAL: Options = Options {
    command: Command::Run,
    view: View::Trace,
    workers: None,
    limit: Options::DEFAULT_LIMIT,
};

static BY_WORKERS: Options = Options {
    command: Command::Run,
    view: View::Trace,
    workers: Some(2),
    limit: Options::DEFAULT_LIMIT,
};

static CUT: Options = Options {
    command: Command::Run,
    view: View::Lines,
    workers: None,
    limit: 2,
};

static CHECK: Options = Options {
    command: Command::Check,
    view: View::Trace,
    workers: None,
    limit: Options::DEFAULT_LIMIT,
};

fn source(text: &str) -> Source<&[u8], &[u8]> {
    Source {
        text: text.as_bytes(),
        script: None,
    }
}

/// Notes that have nothing yet.
fn notes(alloc: Global, keeps: bool) -> Notes<'static, Vec<u8>> {
    Notes {
        writer: Vec::new(alloc),
        names: Names {
            text: Names::STANDARD_INPUT,
            script: Names::STANDARD_INPUT,
        },
        explains: false,
        failures: false,
        failed: false,
        stuck: None,
        keeps,
        keeps_order: false,
        run: None,
        texts: None,
    }
}

/// The notes of a text that is told so.
fn told(alloc: Global, text: &str, keeps: bool, options: &Options) -> Notes<'static, Vec<u8>> {
    let mut notes = notes(alloc, keeps);
    tell(alloc, text, &mut notes, options);
    notes
}

/// Tells a text so, and leaves what is noted of it.
fn tell(alloc: Global, text: &str, notes: &mut Notes<'static, Vec<u8>>, options: &Options) {
    let mut written = Vec::new(alloc);
    let _ = run_and_note(
        &Serial,
        alloc,
        &mut source(text),
        &mut written,
        notes,
        options,
        Nobody,
    );
}

/// What the run that is kept covered, in this form.
fn covered(
    rt: &impl Abort,
    alloc: Global,
    notes: &Notes<'_, Vec<u8>>,
    options: &Options,
    form: Form,
) -> Vec<u8> {
    let run = kept(rt, notes, options);
    let mut written = Vec::new(alloc);
    let told = cover(alloc, &run, form, &mut written);
    assert!(rt; told == Ok(()));
    written
}

/// The run that is kept.
fn kept<'n>(rt: &impl Abort, notes: &'n Notes<'_, Vec<u8>>, options: &'n Options) -> ToldRun<'n> {
    ToldRun {
        run: notes.run.as_ref().expect(rt, "a run"),
        texts: notes.texts.as_ref().expect(rt, "its texts"),
        options,
        source: "so\nme.sdl",
    }
}

#[test]
fn keeps_the_texts_with_the_run(rt: HostRuntime) {
    let alloc = rt.alloc();
    assert!(rt; told(alloc, TEXT, true, &SERIAL).texts.is_some());
    assert!(rt; told(alloc, TEXT, false, &SERIAL).texts.is_none());
    assert!(rt; told(alloc, REFUSED, true, &SERIAL).texts.is_none());
    assert!(rt; told(alloc, TEXT, true, &CHECK).run.is_none());
    assert!(rt; told(alloc, TEXT, true, &CHECK).texts.is_none());
}

/// Notes that have another run lose it.
#[test]
fn forgets_an_earlier_run(rt: HostRuntime) {
    let alloc = rt.alloc();
    let mut notes = told(alloc, TEXT, true, &SERIAL);
    let mut written = Vec::new(alloc);
    let outcome = run_and_note(
        &Serial,
        alloc,
        &mut source(REFUSED),
        &mut written,
        &mut notes,
        &SERIAL,
        Nobody,
    );
    assert!(rt; outcome == Ok(Outcome::TextRefused));
    assert!(rt; notes.run.is_none());
    assert!(rt; notes.texts.is_none());
}

#[test]
fn tells_what_a_run_covered(rt: HostRuntime) {
    let notes = told(rt.alloc(), TEXT, true, &SERIAL);
    let plain = covered(&rt, rt.alloc(), &notes, &SERIAL, Form::Plain);
    assert!(rt; plain.as_slice() == PLAIN.as_bytes());
    let tracefile = covered(&rt, rt.alloc(), &notes, &SERIAL, Form::Lcov);
    assert!(rt; tracefile.as_slice() == TRACEFILE.as_bytes());
}

/// How a run is told doesn't matter.
#[test]
fn tells_it_of_a_run_that_is_cut(rt: HostRuntime) {
    let notes = told(rt.alloc(), TEXT, true, &CUT);
    let plain = covered(&rt, rt.alloc(), &notes, &CUT, Form::Plain);
    assert!(rt; plain.as_slice() == AFTER_TWO.as_bytes());
}

#[test]
fn knows_no_answers_of_workers(rt: HostRuntime) {
    let notes = told_by_workers(&rt, rt.alloc(), false);
    let plain = covered(&rt, rt.alloc(), &notes, &BY_WORKERS, Form::Plain);
    assert!(rt; plain.as_slice() == ON_THREADS.as_bytes());
}

/// Who tells only what a run covered has no use for its order.
#[test]
fn keeps_an_order_where_asked(rt: HostRuntime) {
    for keeps_order in [false, true] {
        let serial = told_serially(rt.alloc(), keeps_order);
        assert!(rt; has_log(&serial) == keeps_order);
        let by_workers = told_by_workers(&rt, rt.alloc(), keeps_order);
        assert!(rt; has_log(&by_workers) == keeps_order);
    }
}

/// Whether something is kept of a run, so that its order can be told.
fn has_log(notes: &Notes<'_, Vec<u8>>) -> bool {
    notes.run.as_ref().is_some_and(|run| run.log.is_some())
}

/// The notes of a serial run that is kept, with what tells its order or without.
fn told_serially(alloc: Global, keeps_order: bool) -> Notes<'static, Vec<u8>> {
    let mut notes = notes(alloc, true);
    notes.keeps_order = keeps_order;
    tell(alloc, TEXT, &mut notes, &SERIAL);
    notes
}

/// The notes of a run with workers that is kept, with what tells its order or without.
fn told_by_workers<R: Abort + Wait + Threads + Sync>(
    rt: &R,
    alloc: Global,
    keeps_order: bool,
) -> Notes<'static, Vec<u8>> {
    let mut notes = notes(alloc, true);
    notes.keeps_order = keeps_order;
    let mut written = Vec::new(alloc);
    let outcome = run_and_note(
        &Threaded::new(rt),
        alloc,
        &mut source(TEXT),
        &mut written,
        &mut notes,
        &BY_WORKERS,
        Nobody,
    );
    assert!(rt; outcome == Ok(Outcome::Whole));
    notes
}

/// A run that is covered can be drawn, too.
#[test]
fn draws_the_same_run(rt: HostRuntime) {
    let notes = told_serially(rt.alloc(), true);
    let all = Selection {
        only: Vec::new(rt.alloc()),
        from: None,
        until: None,
    };
    let mut chart = Vec::new(rt.alloc());
    let run = kept(&rt, &notes, &SERIAL).run;
    let drawn = draw(
        rt.alloc(),
        run,
        sdl_command_line::Form::Msc,
        &all,
        &mut chart,
    );
    assert!(rt; drawn == Ok(None));
    assert!(rt; chart.ends_with(b"endmsc; /* end 1 whole */\n".as_slice()));
    let plain = covered(&rt, rt.alloc(), &notes, &SERIAL, Form::Plain);
    assert!(rt; plain.as_slice() == PLAIN.as_bytes());
}

#[test]
fn tells_a_file_that_fails(rt: HostRuntime) {
    expect_fault(&rt, rt.alloc(), Form::Plain);
    expect_fault(&rt, rt.alloc(), Form::Lcov);
}

/// Sees that the fault of a writer is told.
fn expect_fault(rt: &impl Abort, alloc: Global, form: Form) {
    let notes = told(alloc, TEXT, true, &SERIAL);
    let mut writer = Narrow {
        taken: Vec::new(alloc),
        room: 20,
        fails: true,
    };
    let told = cover(alloc, &kept(rt, &notes, &SERIAL), form, &mut writer);
    assert!(rt; told == Err(TextFault::Write));
    assert!(rt; writer.taken.len() == 20);
}

/// What the runs of whole texts covered. A run that counts as one with workers is told so by its options alone.
#[test]
fn tells_what_texts_cover(rt: HostRuntime) {
    for case in &COVERED {
        let notes = told(rt.alloc(), case.text, true, &SERIAL);
        let options = if case.on_threads {
            &BY_WORKERS
        } else {
            &SERIAL
        };
        let name = case.name;
        let plain = covered(&rt, rt.alloc(), &notes, options, Form::Plain);
        assert!(rt; plain.as_slice() == case.plain.as_bytes(), "{name}");
        let tracefile = covered(&rt, rt.alloc(), &notes, options, Form::Lcov);
        assert!(rt; tracefile.as_slice() == case.tracefile.as_bytes(), "{name}");
    }
}
