//! What a run covered.

ghost use Rattle.std.specs.Prelude.{IfOk, string_bytes};
ghost use Rattle.sdl_parse.specs.Parser.{SpellsText};
ghost use Rattle.sdl_tree.specs.Views.{tree_value};
ghost use Rattle.view_coverage.specs.Covered.{IsCoverage, IsTextOf};

use crate::counts::Counts;
use crate::covered::answers::answers_of;
use crate::covered::section::{Material, sections_of};
use crate::goals::goals_of;
use crate::sections::{Knowledge, Section, plain_text, tracefile};
use run_record::Report;
use sdl_parse::parse;
use sdl_system::System;
use sdl_tree::Tree;
use std::alloc::{AllocError, Global};

/// A form of the text.
#[derive(Clone, Copy, PartialEq, Eq)]
pub enum Form {
    /// For people.
    Plain,
    /// A tracefile of LCOV.
    Lcov,
}

/// A run of a specification on a script.
#[derive(Clone, Copy)]
pub struct Run<'r> {
    /// The specification, without its script.
    pub text: &'r [u8],
    pub script: &'r [u8],
    /// After so many transitions it is cut.
    pub limit: u64,
    /// Whether it had workers.
    pub on_threads: bool,
    pub system: &'r System,
    pub report: &'r Report,
}

/// What a run covered, in this form. `source` is the name of the specification's file.
pub fn coverage(
    alloc: Global,
    run: &Run<'_>,
    form: Form,
    source: &str,
) -> Result<String, AllocError>
    ensures { IfOk result (λ text. IsCoverage run.now form source.now (string_bytes text)) }
{
    let tree = tree_of(alloc, run.text)?;
    let goals = goals_of(alloc, run.text, &tree)?;
    let answers = answers_of(alloc, run, goals.answers.len())?;
    let counts = Counts::of(alloc, run.report)?;
    let material = Material {
        goals: &goals,
        counts: &counts,
        answers: &answers,
        system: run.system,
    };
    let sections = sections_of(alloc, &material)?;
    let text = text_of(alloc, form, &sections, answers.knowledge(), source)?;
    Ok(text)
}

/// The tree of a text that has one. It can be read again, if there is memory.
fn tree_of(alloc: Global, text: &[u8]) -> Result<Tree, AllocError>
    ensures { IfOk result (λ tree. SpellsText (tree_value tree) text.now) }
{
    match parse(alloc, text) {
        Ok(tree) => Ok(tree),
        Err(_) => Err(AllocError),
    }
}

fn text_of(
    alloc: Global,
    form: Form,
    sections: &[Section<'_>],
    knowledge: Knowledge,
    source: &str,
) -> Result<String, AllocError>
    ensures { IfOk result (λ text. IsTextOf form source.now sections.now knowledge (string_bytes text)) }
{
    match form {
        Form::Plain => plain_text(alloc, sections, knowledge),
        Form::Lcov => tracefile(alloc, sections, knowledge, source),
    }
}
