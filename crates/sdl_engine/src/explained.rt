//! The explanation of a refusal, and the failures of a run, for a human.

use crate::input::Input;
use crate::notes::Names;
use crate::pipeline::check_input;
use crate::refusal::Refusal;
use crate::run::Run;
use crate::texts::Texts;
use explain_syntax::Origin;
use sdl_explain::{explain_parse, faults_text, lines_text};
use sdl_failures::{Told, failures_text};
use std::alloc::{AllocError, Global};

/// The explanation of an input, empty if nothing is wrong with it.
pub fn explanation_of(
    alloc: Global,
    input: &Input,
    names: &Names<'_>,
) -> Result<Vec<u8>, AllocError> {
    match check_input(alloc, input) {
        Ok(_) => Ok(Vec::new(alloc)),
        Err(refusal) => explained(alloc, input, names, &refusal),
    }
}

/// The explanation of the refusal of an input.
fn explained(
    alloc: Global,
    input: &Input,
    names: &Names<'_>,
    refusal: &Refusal,
) -> Result<Vec<u8>, AllocError> {
    let (specification, script) = parts_of(input);
    let origin = Origin {
        name: names.text,
        lines_before: 0,
    };
    match refusal {
        Refusal::Parse(error) => {
            let explanation = explain_parse(alloc, specification, error)?;
            explanation.text(alloc, &origin)
        }
        Refusal::Build(error) => faults_text(alloc, specification, &origin, error),
        Refusal::Script(error) => {
            let origin = origin_of_script(input, names);
            lines_text(alloc, specification, script, &origin, *error)
        }
        Refusal::Run(_) => Ok(Vec::new(alloc)),
    }
}

/// The text that tells the failures of a run of an input, empty if none came.
pub fn failures_of(
    alloc: Global,
    input: &Input,
    run: &Run,
    names: &Names<'_>,
) -> Result<Vec<u8>, AllocError> {
    let (specification, _) = parts_of(input);
    let told = Told {
        text: specification,
        name: names.text,
        tree: &run.tree,
        system: &run.system,
        report: &run.report,
    };
    failures_text(alloc, &told)
}

/// The specification and the script of an input; nothing of one that is too long.
fn parts_of(input: &Input) -> (&[u8], &[u8]) {
    match input {
        Input::Held(texts) => texts.parts(),
        Input::TooLong => {
            let nothing: &[u8] = &[];
            (nothing, nothing)
        }
    }
}

/// Where the script comes from: a file of its own, or the one of the specification, in which it follows that and a line
/// `%script`.
fn origin_of_script<'n>(input: &Input, names: &Names<'n>) -> Origin<'n> {
    match input {
        Input::Held(Texts { script: None, .. }) => {
            let (specification, _) = parts_of(input);
            Origin {
                name: names.text,
                lines_before: line_ends(specification).saturating_add(1),
            }
        }
        _ => Origin {
            name: names.script,
            lines_before: 0,
        },
    }
}

/// How many lines of a text have an end.
fn line_ends(text: &[u8]) -> usize {
    text.iter().filter(|byte| **byte == b'\n').count()
}
