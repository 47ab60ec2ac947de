//! What a human is told beside the answer: why a text is refused, what cut a run, which instances failed, and from where
//! on the order of a run isn't known. And the run itself with its texts, for those who draw it or tell what it covered.

ghost use Rattle.std.specs.Prelude.{◌≡◌, ◌≢◌, None, Some, false, true};
ghost use Rattle.std.specs.Io.KnownBytes.{Keeps};
ghost use Rattle.sdl_failures.specs.Ending.{has_failed};
ghost use Rattle.sdl_engine.specs.Kept.{TellsNone, texts_with};

use crate::explained::{explanation_of, failures_of};
use crate::input::Input;
use crate::options::{Outcome, TextFault};
use crate::run::Run;
use crate::texts::Texts;
use run_record::{Entry, Report};
use sdl_failures::has_failed;
use sdl_report::write_text;
use std::alloc::{AllocError, Global};
use std::io;
use std::io::{Empty, Write};

/// The files of an input, as explanations name them.
#[derive(Clone, Copy)]
pub struct Names<'n> {
    /// The file of the specification, and of the script that follows it.
    pub text: &'n str,
    /// The file of a script of its own.
    pub script: &'n str,
}

impl Names<'_> {
    /// The name of standard input, from which either may be read.
    pub const STANDARD_INPUT: &'static str = "<stdin>";
}

/// Where a human is told more than the answer, and of what. A fault of writing there is let go, and so is lack of
/// memory.
#[derive(Drop)]
pub struct Notes<'n, N> {
    pub writer: N,
    pub names: Names<'n>,
    /// Whether a refusal of the text is explained.
    pub explains: bool,
    /// Whether failures of instances are told.
    pub failures: bool,
    /// Whether an instance of the run failed.
    pub failed: bool,
    /// The instance that can't go on in the order of the run, if that is told and isn't known to its end.
    pub stuck: Option<u32>,
    /// Whether the run is kept for those who draw it, or tell what it covered.
    pub keeps: bool,
    /// Whether what tells its order is kept with it.
    pub keeps_order: bool,
    /// The run of an input that is accepted, if it is kept.
    pub run: Option<Run>,
    /// The texts of this input, if its run is kept.
    pub texts: Option<Texts>,
}

/// Notes that tell nothing.
pub fn silent_notes() -> Notes<'static, Empty> {
    Notes {
        writer: io::empty(),
        names: Names {
            text: Names::STANDARD_INPUT,
            script: Names::STANDARD_INPUT,
        },
        explains: false,
        failures: false,
        failed: false,
        stuck: None,
        keeps: false,
        keeps_order: false,
        run: None,
        texts: None,
    }
}

/// Tells why the text of an input is refused, if that came of it and is to be explained.
pub fn note_refusal<N: Write>(
    alloc: Global,
    input: &Input,
    told: &Result<Outcome, TextFault>,
    explains: bool,
    notes: &mut Notes<'_, N>,
)
    ensures refused { told.now ≢ Ok Outcome.TextRefused →
        Keeps (N.contents notes.old.writer) (N.contents notes.new.writer) }
    ensures asked { explains ≡ false → Keeps (N.contents notes.old.writer) (N.contents notes.new.writer) }
    ensures rest { notes.new ≡ record notes.old { writer = notes.new.writer } }
{
    if !explains {
        return;
    }
    let Ok(Outcome::TextRefused) = told else {
        return;
    };
    if let Ok(text) = explanation_of(alloc, input, &notes.names) {
        let _ = write_text(&mut notes.writer, &text);
    }
}

/// Tells what cut a run that came to this, and from which instance on its order isn't known.
pub fn note_run<N: Write>(
    alloc: Global,
    run: &Run,
    outcome: Outcome,
    stuck: Option<u32>,
    notes: &mut Notes<'_, N>,
)
    ensures quiet { outcome ≢ Outcome.Cut → stuck ≡ None →
        Keeps (N.contents notes.old.writer) (N.contents notes.new.writer) }
    ensures order { notes.new.stuck ≡ stuck }
{
    note_cut(alloc, run, outcome, notes);
    note_stuck(alloc, stuck, notes);
}

/// Notes whether an instance of a run failed, and tells the failures, if that is asked for.
pub fn note_failures<N: Write>(
    alloc: Global,
    input: &Input,
    run: &Run,
    tells: bool,
    notes: &mut Notes<'_, N>,
)
    ensures failed { notes.new.failed ≡ has_failed run.now.report.records.items }
    ensures quiet { TellsNone tells notes.new.failed →
        Keeps (N.contents notes.old.writer) (N.contents notes.new.writer) }
    ensures rest { notes.new ≡ record notes.old { writer = notes.new.writer; failed = notes.new.failed } }
{
    notes.failed = has_failed(&run.report.records);
    if !notes.failed || !tells {
        return;
    }
    if let Ok(text) = failures_of(alloc, input, run, &notes.names) {
        let _ = write_text(&mut notes.writer, &text);
    }
}

/// Keeps a run for those who draw it, or tell what it covered, if that is asked for.
pub fn keep_run<N: Write>(run: Run, keeps: bool, notes: &mut Notes<'_, N>)
    ensures kept { keeps ≡ true → notes.new ≡ record notes.old { run = Some run } }
    ensures asked { keeps ≡ false → notes.new ≡ record notes.old { run = None } }
    ensures rest { notes.new ≡ record notes.old { run = notes.new.run } }
    ensures quiet { Keeps (N.contents notes.old.writer) (N.contents notes.new.writer) }
{
    notes.run = if keeps { Some(run) } else { None };
}

/// Keeps the texts of an input, if its run is kept.
pub fn keep_texts<N: Write>(input: Input, notes: &mut Notes<'_, N>)
    ensures kept { notes.new ≡ record notes.old { texts = texts_with notes.old.run input } }
    ensures quiet { Keeps (N.contents notes.old.writer) (N.contents notes.new.writer) }
{
    notes.texts = match (&notes.run, input) {
        (Some(_), Input::Held(texts)) => Some(texts),
        _ => None,
    };
}

/// Tells from which instance on the order of a run isn't known, if there is one.
fn note_stuck<N: Write>(alloc: Global, stuck: Option<u32>, notes: &mut Notes<'_, N>)
    ensures quiet { stuck ≡ None → Keeps (N.contents notes.old.writer) (N.contents notes.new.writer) }
    ensures order { notes.new.stuck ≡ stuck }
{
    notes.stuck = stuck;
    let Some(number) = stuck else {
        return;
    };
    if let Ok(text) = stuck_text(alloc, number) {
        let _ = write_text(&mut notes.writer, text.as_str().as_bytes());
    }
}

/// Tells what cut a run that came to this.
fn note_cut<N: Write>(alloc: Global, run: &Run, outcome: Outcome, notes: &mut Notes<'_, N>)
    ensures { outcome ≢ Outcome.Cut → Keeps (N.contents notes.old.writer) (N.contents notes.new.writer) }
{
    if outcome != Outcome::Cut {
        return;
    }
    if let Ok(text) = cut_text(alloc, &run.report) {
        let _ = write_text(&mut notes.writer, text.as_str().as_bytes());
    }
}

/// What is said of a run that was cut at its limit.
fn cut_text(alloc: Global, report: &Report) -> Result<String, AllocError> {
    let end = report.end.get();
    let count = transitions_in(report);
    let noun = if count == 1 {
        "transition"
    } else {
        "transitions"
    };
    if end == 0 {
        return format!(in alloc;
            "sdlrun: cut after {count} {noun}; the clock never moved; --limit shows less\n"
        );
    }
    format!(in alloc;
        "sdlrun: cut after {count} {noun} at time {end}; --limit shows less, or more\n"
    )
}

/// How many transitions the records have, as they count for the limit. With workers these may be some more than that.
fn transitions_in(report: &Report) -> u64 {
    let mut count = 0u64;
    for record in &report.records {
        let own = record
            .reader()
            .filter(|told| is_transition(told.entry))
            .count();
        count = count.saturating_add(own as u64);
    }
    count
}

/// Whether a transition begins with an event.
fn is_transition(entry: Entry) -> bool {
    matches!(
        entry,
        Entry::Start { .. }
            | Entry::Consumed { .. }
            | Entry::Prior { .. }
            | Entry::Discarded { .. }
            | Entry::Provided { .. }
    )
}

/// What is said of an order that isn't known from this instance on.
fn stuck_text(alloc: Global, number: u32) -> Result<String, AllocError> {
    format!(in alloc; "sdlrun: the order isn't known from instance #{number} on\n")
}
