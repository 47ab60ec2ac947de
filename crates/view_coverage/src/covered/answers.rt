//! How often each answer was taken.

ghost use Rattle.std.specs.Prelude.{◌≡◌, false, IfOk, IfSome};
ghost use Rattle.view_coverage.specs.Answers.{AreRight, IsOfScript};
ghost use Rattle.view_coverage.specs.Covered.{knowledge_of};

use crate::covered::run::Run;
use crate::marks::{mark, passes};
use crate::sections::Knowledge;
use run_record::Report;
use sdl_build::build;
use sdl_parse::parse;
use sdl_script::read_script;
use serial_run::run_serial;
use std::alloc::{AllocError, Global};

/// How often the parts of decisions were passed, or why that is not known.
#[derive(Drop)]
pub enum Answers {
    /// Of each part, in the order of the text.
    Known(Vec<u64>),
    /// The run was one with workers: another one may go another way.
    NotOfThreads,
    /// A run that counts the parts is not the same, except for the counting.
    OtherRun,
}

impl Answers {
    /// Whether they are known.
    pub fn knowledge(&self) -> Knowledge
        ensures { result ≡ knowledge_of self.now }
    {
        match self {
            Answers::Known(_) => Knowledge::Known,
            Answers::NotOfThreads => Knowledge::NotOfThreads,
            Answers::OtherRun => Knowledge::OtherRun,
        }
    }
}

/// How often the parts of decisions were passed in a run, of which there are so many. A serial run is made a second
/// time, with marks.
pub fn answers_of(alloc: Global, run: &Run<'_>, parts: usize) -> Result<Answers, AllocError>
    ensures { IfOk result (AreRight run.now parts) }
{
    if run.on_threads {
        return Ok(Answers::NotOfThreads);
    }
    match marked_report(alloc, run, parts)? {
        None => Ok(Answers::OtherRun),
        Some(marked) => counted(alloc, run, &marked, parts),
    }
}

/// How often the parts of decisions were passed, by the report of a run with marks.
fn counted(
    alloc: Global,
    run: &Run<'_>,
    marked: &Report,
    parts: usize,
) -> Result<Answers, AllocError>
    requires serial { run.now.on_threads ≡ false }
    requires is_run { IsOfScript run.now.script.now run.now.limit marked.now }
    ensures { IfOk result (AreRight run.now parts) }
{
    match passes(alloc, run.system, run.report, marked, parts)? {
        None => Ok(Answers::OtherRun),
        Some(counts) => Ok(Answers::Known(counts)),
    }
}

/// The report of the run with marks in so many parts of decisions, if there is one.
fn marked_report(alloc: Global, run: &Run<'_>, parts: usize) -> Result<Option<Report>, AllocError>
    ensures { IfOk result (λ found. IfSome found (IsOfScript run.now.script.now run.now.limit)) }
{
    let Ok(tree) = parse(alloc, run.text) else {
        return Ok(None);
    };
    let mut tree = tree;
    let marks = mark(alloc, &mut tree)?;
    if usize::try_from(marks).ok() != Some(parts) {
        return Ok(None);
    }
    let Ok(system) = build(alloc, &tree) else {
        return Ok(None);
    };
    let Ok(script) = read_script(alloc, &system, run.script) else {
        return Ok(None);
    };
    Ok(run_serial(alloc, &system, &script, run.limit).ok())
}
