//! Whether a case is answered as wanted.

ghost use Rattle.std.specs.Prelude.{◌≡◌, ◌↔◌, IfOk, IfSome, IsNone, MatchOption};
ghost use Rattle.conformance.specs.Judgement.{Answers, AnswersOtherwise, IsAnswered, IsAsWanted, IsCanonical, IsOfAnswer, IsSame, IsUnstable, Upholds};

use crate::answer::{answer_of, notes_of};
use crate::case::{Answer, Asked, Case};
use crate::chart::chart_of;
use crate::compare::{LinePair, first_difference};
use sdl_command_line::Form;
use sdl_engine::{Command, Options};
use std::alloc::{AllocError, Global};
use std::fmt;
use std::sync::Wait;
use std::thread::Threads;

/// How long a specification may be. A longer canonical text is none, so it has no canonical text.
const LONGEST_SPECIFICATION: usize = 1_048_576;

/// The verdict on a case.
#[derive(Drop)]
pub enum Verdict {
    AsWanted,
    Differs(Difference),
}

/// In what a case differs from what is wanted of it.
#[derive(Drop)]
pub enum Difference {
    /// Its command line is none that the driver knows.
    Arguments,
    Output(LinePair),
    Status { want: u8, told: u8 },
    /// Its canonical text has another canonical text.
    Again(LinePair),
    /// It is answered as wanted, and explained otherwise.
    Explained(LinePair),
}

impl fmt::Display for Difference {
    fn fmt<W: fmt::Write>(&self, f: &mut fmt::Formatter<W>) -> fmt::Result {
        match self {
            Difference::Arguments => write!(f, "arguments"),
            Difference::Output(pair) => write!(f, "{pair}"),
            Difference::Status { want, told } => {
                write!(f, "status\n  want: {want}\n  told: {told}")
            }
            Difference::Again(pair) => write!(f, "canonical text again, {pair}"),
            Difference::Explained(pair) => write!(f, "explained, {pair}"),
        }
    }
}

/// Asks the engine a case, and compares what it answers, or what is drawn of its run.
pub fn judge<T: Threads + Wait + Copy + Send + Sync>(
    rt: &T,
    alloc: Global,
    case: &Case,
) -> Result<Verdict, AllocError>
    ensures { IfOk result (Upholds case.now) }
{
    match case.asked {
        Asked::Command(options) => match judge_command(rt, alloc, case, &options)? {
            Verdict::AsWanted => judge_notes(rt, alloc, case, &options),
            Verdict::Differs(difference) => Ok(Verdict::Differs(difference)),
        },
        Asked::Chart { options, form } => judge_chart(rt, alloc, case, &options, form),
        Asked::Unknown => Ok(Verdict::Differs(Difference::Arguments)),
    }
}

fn judge_command<T: Threads + Wait + Copy + Send + Sync>(
    rt: &T,
    alloc: Global,
    case: &Case,
    options: &Options,
) -> Result<Verdict, AllocError>
    requires { case.now.asked ≡ Asked.Command options.now }
    ensures { IfOk result (Upholds case.now) }
{
    let answer = answer_of(rt, alloc, case.input.as_slice(), options);
    match difference_again(rt, alloc, &answer, options)? {
        Some(pair) => Ok(Verdict::Differs(Difference::Again(pair))),
        None => judge_answer(alloc, case, &answer),
    }
}

/// Compares what is noted for a human, of a case that is answered as wanted.
fn judge_notes<T: Threads + Wait + Copy + Send + Sync>(
    rt: &T,
    alloc: Global,
    case: &Case,
    options: &Options,
) -> Result<Verdict, AllocError>
    requires { Answers case.now case.now.wanted }
    ensures { IfOk result (Upholds case.now) }
{
    let Some(want) = &case.explained else {
        return Ok(Verdict::AsWanted);
    };
    let told = notes_of(rt, alloc, case.input.as_slice(), options)?;
    match first_difference(alloc, want.as_slice(), told.as_slice())? {
        Some(pair) => Ok(Verdict::Differs(Difference::Explained(pair))),
        None => Ok(Verdict::AsWanted),
    }
}

/// Compares what is drawn of a run.
fn judge_chart<T: Threads + Wait + Copy + Send + Sync>(
    rt: &T,
    alloc: Global,
    case: &Case,
    options: &Options,
    form: Form,
) -> Result<Verdict, AllocError>
    requires { case.now.asked ≡ Asked.Chart options.now form }
    ensures { IfOk result (Upholds case.now) }
{
    let chart = chart_of(rt, alloc, case.input.as_slice(), options, form)?;
    judge_answer(alloc, case, &chart)
}

fn judge_answer(alloc: Global, case: &Case, answer: &Answer) -> Result<Verdict, AllocError>
    requires { IsAnswered case.now answer.now }
    ensures upholds { IfOk result (Upholds case.now) }
    ensures compared { IfOk result (λ verdict. IsAsWanted verdict ↔ IsSame case.now.wanted answer.now) }
{
    match compare(alloc, &case.wanted, answer)? {
        Some(difference) => Ok(judge_other(case, answer, difference)),
        None => Ok(Verdict::AsWanted),
    }
}

/// Judges a case whose answer differs from the wanted one.
fn judge_other(_case: &Case, _answer: &Answer, difference: Difference) -> Verdict
    requires answers { AnswersOtherwise _case.now _answer.now }
    requires kind { IsOfAnswer difference }
    ensures upholds { Upholds _case.now result }
    ensures differs { result ≡ Verdict.Differs difference }
{
    Verdict::Differs(difference)
}

/// In what an answer differs from the wanted one.
fn compare(alloc: Global, want: &Answer, told: &Answer) -> Result<Option<Difference>, AllocError>
    ensures same { IfOk result (λ found. IsNone found ↔ IsSame want.now told.now) }
    ensures kind { IfOk result (λ found. IfSome found IsOfAnswer) }
{
    if let Some(pair) = first_difference(alloc, want.output.as_slice(), told.output.as_slice())? {
        return Ok(Some(Difference::Output(pair)));
    }
    if want.status == told.status {
        return Ok(None);
    }
    Ok(Some(Difference::Status {
        want: want.status,
        told: told.status,
    }))
}

/// In what the canonical text of an accepted specification differs from its own canonical text.
fn difference_again<T: Threads + Wait + Copy + Send + Sync>(
    rt: &T,
    alloc: Global,
    answer: &Answer,
    options: &Options,
) -> Result<Option<LinePair>, AllocError>
    ensures { IfOk result (λ found. MatchOption found
        (IsCanonical options.now answer.now) (λ _. IsUnstable options.now answer.now)) }
{
    if options.command != Command::Check || answer.status != 0 {
        return Ok(None);
    }
    if answer.output.len() > LONGEST_SPECIFICATION {
        return Ok(None);
    }
    let again = answer_of(rt, alloc, answer.output.as_slice(), options);
    first_difference(alloc, answer.output.as_slice(), again.output.as_slice())
}
