//! Failures of instances that nobody asks for. What is told of them are cases.

use sdl_engine::{
    Command, Names, Nobody, Notes, Options, Outcome, Serial, Source, TextFault, View, run_and_note,
};
use std::alloc::Global;

static MANY: &str = "system S;
process P (12, 12);
dcl n Integer;
start;
  task n := n;
  stop;
endprocess;
endsystem;
";

#[test]
fn tells_none_if_none_is_asked_for(rt: HostRuntime) {
    let mut notes = Notes {
        writer: Vec::new(rt.alloc()),
        names: Names {
            text: "twelve.sdl",
            script: "twelve.sdl",
        },
        explains: true,
        failures: false,
        failed: false,
        stuck: None,
        keeps: false,
        keeps_order: false,
        run: None,
        texts: None,
    };
    let told = run(rt.alloc(), MANY, &mut notes);
    assert!(rt; told == Ok(Outcome::Whole));
    assert!(rt; notes.failed);
    assert!(rt; notes.writer.is_empty());
}

fn run(alloc: Global, text: &str, notes: &mut Notes<'_, Vec<u8>>) -> Result<Outcome, TextFault> {
    let options = Options {
        command: Command::Run,
        view: View::Trace,
        workers: None,
        limit: Options::DEFAULT_LIMIT,
    };
    let mut source = Source {
        text: text.as_bytes(),
        script: None::<&[u8]>,
    };
    let mut written = Vec::new(alloc);
    run_and_note(
        &Serial,
        alloc,
        &mut source,
        &mut written,
        notes,
        &options,
        Nobody,
    )
}
