//! The text that is read: a file or standard input, and a script of its own, if one is named.

use crate::answer::Answer;
use crate::covered::cover_file;
use crate::drawn::draw_file;
use crate::expected::{Compared, Expected};
use crate::failure::Failure;
use crate::message::Message;
use crate::opened::{Kept, Opened, open_source};
use crate::progress::Progress;
use crate::warned::warn;
use sdl_command_line::{InputFile, Part, Task, ToldRun};
use sdl_engine::{
    Names, Nobody, Notes, Options, Outcome, Serial, Source, TextFault, Threaded, View, run_and_note,
};
use std::io::Write;
use std::sync::Wait;
use std::thread::Threads;

/// What came of a text.
#[derive(Clone, Copy)]
pub struct Told {
    pub outcome: Outcome,
    /// Whether an instance failed, if that counts.
    pub failed: bool,
    /// Whether the order of the run is told, and isn't known to its end.
    pub stuck: bool,
    /// Whether the run differs from what is expected.
    pub differs: bool,
    /// Whether something in the specification is suspicious, if that counts.
    pub warned: bool,
}

/// Does what the command line asks for with the text that it names. Then it draws the run, tells what it covered, and
/// compares it with what is expected, if that is asked for. `threads` starts the workers, if any are asked for.
pub fn tell<T: Threads + Wait + Copy + Send + Sync>(
    rt: &HostRuntime,
    threads: &T,
    task: &Task,
) -> Result<Told, Failure> {
    let mut source = open_source(rt, task)?;
    let expected = Expected::read(rt, task)?;
    let mut notes = notes_of(rt, task);
    let written = tell_text(rt, threads, task, &mut source, &mut notes)?;
    let warned = warn(rt, task, &source, written.outcome)?;
    let drawn = draw_run(rt, task, &notes)?;
    cover_run(rt, task, &notes)?;
    let compared = compare_run(rt, task, &expected, &notes, &written)?;
    Ok(Told {
        outcome: written.outcome,
        failed: task.strict && notes.failed,
        stuck: notes.stuck.or(drawn).or(compared.stuck).is_some(),
        differs: compared.differs,
        warned: warned && task.denies_warnings,
    })
}

/// What came of a text, and what was written of it, if that is held for those who compare it.
#[derive(Drop)]
struct Written {
    outcome: Outcome,
    text: Vec<u8>,
}

/// What standard error is to have of it.
fn notes_of<'t>(rt: &HostRuntime, task: &'t Task) -> Notes<'t, Message> {
    Notes {
        writer: Message::new(rt),
        names: names_of(task),
        explains: task.explain,
        failures: task.failures,
        failed: false,
        stuck: None,
        keeps: keeps_run(task),
        keeps_order: keeps_order(task),
        run: None,
        texts: None,
    }
}

/// Whether the run is kept for those who draw it, tell what it covered, or compare it.
fn keeps_run(task: &Task) -> bool {
    task.chart.is_some() || task.coverage.is_some() || task.expectation.is_some()
}

/// Whether what tells the order of the run is kept with it: for its chart, and where what it sent is compared in that
/// order.
fn keeps_order(task: &Task) -> bool {
    task.chart.is_some() || compares_in_order(task)
}

/// Whether what a run sends to the environment is compared in its order: with workers that of each instance is compared
/// by itself.
fn compares_in_order(task: &Task) -> bool {
    match &task.expectation {
        Some(expectation) => expectation.part == Part::Outputs && task.options.workers.is_none(),
        None => false,
    }
}

/// Writes what is asked for of the text. If nothing is to be written of a text that is accepted, or what is written is
/// compared, it is held first.
fn tell_text<T: Threads + Wait + Copy + Send + Sync>(
    rt: &HostRuntime,
    threads: &T,
    task: &Task,
    source: &mut Source<Kept, Opened>,
    notes: &mut Notes<'_, Message>,
) -> Result<Written, Failure> {
    let mut answer = Answer::new(rt.stdout());
    let mut text = Vec::new(rt.alloc());
    if !task.quiet && task.expectation.is_none() {
        return match tell_to(rt, threads, source, &mut answer, notes, &task.options) {
            Ok(outcome) => Ok(Written { outcome, text }),
            Err(fault) => Err(answer.failure(fault)),
        };
    }
    let outcome = match tell_to(rt, threads, source, &mut text, notes, &task.options) {
        Ok(outcome) => outcome,
        Err(fault) => return Err(Failure::Text(fault)),
    };
    let is_silent = task.quiet && outcome == Outcome::Whole;
    if !is_silent && answer.write_all(&text).is_err() {
        return Err(answer.failure(TextFault::Write));
    }
    Ok(Written { outcome, text })
}

/// Draws the run that is kept, if there is one. It answers the instance that can't go on in the order of the run, if
/// one can't. That is said once.
fn draw_run(
    rt: &HostRuntime,
    task: &Task,
    notes: &Notes<'_, Message>,
) -> Result<Option<u32>, Failure> {
    let (Some(chart), Some(run)) = (&task.chart, &notes.run) else {
        return Ok(None);
    };
    let stuck = draw_file(rt, run, chart)?;
    if task.options.view == View::Trace
        && let Some(number) = stuck
    {
        note_stuck(rt, number);
    }
    Ok(stuck)
}

/// Tells what the run covered that is kept, if there is one.
fn cover_run(rt: &HostRuntime, task: &Task, notes: &Notes<'_, Message>) -> Result<(), Failure> {
    let (Some(coverage), Some(run), Some(texts)) = (&task.coverage, &notes.run, &notes.texts) else {
        return Ok(());
    };
    let told = ToldRun {
        run,
        texts,
        options: &task.options,
        source: notes.names.text,
    };
    cover_file(rt, &told, coverage)
}

/// Compares the run that is kept with what is expected. From where on its order isn't known is said once.
fn compare_run(
    rt: &HostRuntime,
    task: &Task,
    expected: &Option<Expected<'_>>,
    notes: &Notes<'_, Message>,
    written: &Written,
) -> Result<Compared, Failure> {
    let (Some(expected), Some(run)) = (expected, &notes.run) else {
        return Ok(Compared {
            differs: false,
            stuck: None,
        });
    };
    let compared = expected.compare(rt, task, run, &written.text)?;
    if task.chart.is_none()
        && let Some(number) = compared.stuck
    {
        note_stuck(rt, number);
    }
    Ok(compared)
}

/// Says from which instance on the order of a run isn't known.
fn note_stuck(rt: &HostRuntime, number: u32) {
    let _ = eprintln!(rt; "sdlrun: the order isn't known from instance #{number} on");
}

/// Writes what is asked for of the text with this writer; without threads, if none are asked for, so that it always
/// returns.
fn tell_to<T: Threads + Wait + Copy + Send + Sync, W: Write>(
    rt: &HostRuntime,
    threads: &T,
    source: &mut Source<Kept, Opened>,
    writer: &mut W,
    notes: &mut Notes<'_, Message>,
    options: &Options,
) -> Result<Outcome, TextFault> {
    if options.is_serial() {
        let progress = Progress::new(rt, notes.explains);
        run_and_note(
            &Serial,
            rt.alloc(),
            source,
            writer,
            notes,
            options,
            progress,
        )
    } else {
        let runner = Threaded::new(threads);
        run_and_note(&runner, rt.alloc(), source, writer, notes, options, Nobody)
    }
}

/// How explanations name the files.
pub fn names_of(task: &Task) -> Names<'_> {
    Names {
        text: name_of(&task.text),
        script: match &task.script {
            Some(script) => name_of(script),
            None => name_of(&task.text),
        },
    }
}

fn name_of(file: &InputFile) -> &str {
    match file {
        InputFile::StandardInput => Names::STANDARD_INPUT,
        InputFile::Named(name) => name.as_str(),
    }
}
