//! What a run covered of its specification.

ghost use Rattle.std.specs.Prelude.{IfErr, IfOk, OnOk, string_bytes};
ghost use Rattle.sdl_command_line.specs.Covered.{FailsToCover, IsTextOut, SaysCovered};

use sdl_engine::{Options, Run, TextFault, Texts};
use sdl_report::write_text;
use std::alloc::{AllocError, Global};
use std::io::Write;
use view_coverage::{Form, coverage};

/// The form of the text on coverage that the ending of a file's name chooses.
pub fn coverage_form(name: &str) -> Option<Form> {
    if name.ends_with(".txt") {
        Some(Form::Plain)
    } else if name.ends_with(".info") {
        Some(Form::Lcov)
    } else {
        None
    }
}

/// A run, and what it was made of.
#[derive(Clone, Copy)]
pub struct ToldRun<'s> {
    pub run: &'s Run,
    /// The specification and its script.
    pub texts: &'s Texts,
    pub options: &'s Options,
    /// The name of the specification's file.
    pub source: &'s str,
}

/// Writes what a run covered, and what it never did, as a text in this form. It is made before anything is written.
pub fn cover<W: Write>(
    alloc: Global,
    told: &ToldRun<'_>,
    form: Form,
    writer: &mut W,
) -> Result<(), TextFault>
    ensures ok { OnOk result (IsTextOut told.now form (W.contents writer.old) (W.contents writer.new)) }
    ensures err { IfErr result (λ fault. FailsToCover fault told.now form
        (W.contents writer.old) (W.contents writer.new)) }
{
    match covered_text(alloc, told, form) {
        Ok(text) => Ok(write_text(writer, text.as_str().as_bytes())?),
        Err(_) => Err(TextFault::Memory),
    }
}

/// The text of what a run covered.
fn covered_text(alloc: Global, told: &ToldRun<'_>, form: Form) -> Result<String, AllocError>
    ensures { IfOk result (λ text. SaysCovered told.now form (string_bytes text)) }
{
    let (text, script) = told.texts.parts();
    let covered = view_coverage::Run {
        text,
        script,
        limit: told.options.limit,
        on_threads: told.options.workers.is_some(),
        system: &told.run.system,
        report: &told.run.report,
    };
    coverage(alloc, &covered, form, told.source)
}
