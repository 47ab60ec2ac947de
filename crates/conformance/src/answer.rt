//! What the program answers, and what it notes of a refusal.

ghost use Rattle.conformance.specs.Judgement.{IsAnswer, status_of};
ghost use Rattle.std.specs.Prelude.{◌≡◌};

use crate::case::Answer;
use sdl_engine::{
    Names, Nobody, Notes, Options, Outcome, Source, TextFault, Texts, Threaded, run_and_note,
    run_text, suspicions_of,
};
use std::alloc::{AllocError, Global};
use std::sync::Wait;
use std::thread::Threads;

/// The least status of a text that is refused.
const REFUSED: u8 = 2;

/// Runs the engine on an input.
pub fn answer_of<T: Threads + Wait + Copy + Send + Sync>(
    rt: &T,
    alloc: Global,
    input: &[u8],
    options: &Options,
) -> Answer
    ensures { IsAnswer input.now options.now result.output.items result.status }
{
    let mut reader = input;
    let mut output = Vec::new(alloc);
    let outcome = run_text(&Threaded::new(rt), alloc, &mut reader, &mut output, options);
    let status = status_of(&outcome);
    Answer { status, output }
}

/// What the engine notes of an input for a human: why it is refused, or which instances of its run failed, and what is
/// suspicious in it.
pub fn notes_of<T: Threads + Wait + Copy + Send + Sync>(
    rt: &T,
    alloc: Global,
    input: &[u8],
    options: &Options,
) -> Result<Vec<u8>, AllocError> {
    let mut notes = silent_notes(alloc);
    notes.explains = true;
    notes.failures = true;
    let answer = noted_answer(rt, alloc, input, &mut notes, options);
    let Notes {
        mut writer,
        names,
        ..
    } = notes;
    if answer.status < REFUSED {
        let texts = Texts {
            text: Vec::from_slice(alloc, input)?,
            script: None,
        };
        writer.extend_from_slice(&suspicions_of(alloc, &texts, &names)?)?;
    }
    Ok(writer)
}

/// Notes that tell nothing, of an input from standard input.
pub fn silent_notes(alloc: Global) -> Notes<'static, Vec<u8>> {
    Notes {
        writer: Vec::new(alloc),
        names: Names {
            text: Names::STANDARD_INPUT,
            script: Names::STANDARD_INPUT,
        },
        explains: false,
        failures: false,
        failed: false,
        stuck: None,
        keeps: false,
        keeps_order: false,
        run: None,
        texts: None,
    }
}

/// Runs the engine on an input, and has it note what is asked for.
pub fn noted_answer<T: Threads + Wait + Copy + Send + Sync>(
    rt: &T,
    alloc: Global,
    input: &[u8],
    notes: &mut Notes<'_, Vec<u8>>,
    options: &Options,
) -> Answer
    ensures { IsAnswer input.now options.now result.output.items result.status }
{
    let mut source = Source {
        text: input,
        script: None::<&[u8]>,
    };
    let mut output = Vec::new(alloc);
    let runner = Threaded::new(rt);
    let outcome = run_and_note(
        &runner,
        alloc,
        &mut source,
        &mut output,
        notes,
        options,
        Nobody,
    );
    let status = status_of(&outcome);
    Answer { status, output }
}

/// The exit status that the program gives.
fn status_of(outcome: &Result<Outcome, TextFault>) -> u8
    ensures { result ≡ status_of outcome.now }
{
    match outcome {
        Ok(Outcome::Whole) => 0,
        Ok(Outcome::Cut) => 1,
        Ok(Outcome::TextRefused) => 2,
        Ok(Outcome::RunRefused) | Err(_) => 3,
    }
}
