//! The explanation of a script that is refused.

ghost use Rattle.std.specs.Prelude.{◌≡◌, None, IfOk};
ghost use Rattle.sdl_explain.specs.Refused.{IsShownLine, script_line};

use crate::advice::has_signal;
use crate::sentence::script_advice;
use explain_syntax::{
    Excerpt, Explanation, line_fault, name_column, name_in, receiver_column, time_column,
};
use sdl_lex::Place;
use sdl_parse::parse;
use sdl_script::ScriptError;
use sdl_tree::Tree;
use std::alloc::{AllocError, Global};

/// Explains why a script for a specification is refused.
pub fn explain_script<'t>(
    alloc: Global,
    specification: &[u8],
    script: &'t [u8],
    error: ScriptError,
) -> Result<Explanation<'t>, AllocError>
    ensures shown { IfOk result (λ told. IsShownLine script.now (script_line error) told.shown) }
    ensures other { IfOk result (λ told. told.other ≡ None) }
{
    let tree = parse(alloc, specification).ok();
    let shown = shown_line(script, tree.as_ref(), error);
    let advice = script_advice(alloc, tree.as_ref(), error, &shown)?;
    Ok(Explanation {
        shown,
        advice,
        other: None,
    })
}

/// The number of the line that is refused.
pub fn script_line(error: ScriptError) -> Option<usize>
    ensures { result ≡ script_line error }
{
    match error {
        ScriptError::Syntax(number)
        | ScriptError::BackInTime(number)
        | ScriptError::UnknownSignal(number)
        | ScriptError::Arguments(number) => Some(number),
        ScriptError::Memory => None,
    }
}

/// The line that is refused, with what the refusal is about: the time, the signal, its receiver or another word.
fn shown_line<'t>(script: &'t [u8], tree: Option<&Tree>, error: ScriptError) -> Option<Excerpt<'t>>
    ensures { IsShownLine script.now (script_line error) result }
{
    let number = script_line(error)?;
    let line = Excerpt::at(
        script,
        Place {
            line: number,
            column: 1,
        },
    )?;
    let column = column_of(line.behind, tree, error);
    let place = Place {
        line: number,
        column,
    };
    match Excerpt::at(script, place) {
        Some(excerpt) => Some(excerpt),
        None => Some(line),
    }
}

/// In which column of its line is what a refusal is about.
fn column_of(line: &[u8], tree: Option<&Tree>, error: ScriptError) -> usize {
    match error {
        ScriptError::UnknownSignal(_) => unsent_column(line, tree),
        ScriptError::Arguments(_) => name_column(line),
        ScriptError::Syntax(_) => wrong_column(line),
        _ => time_column(line),
    }
}

/// In which column a line is wrong that says nothing: at its time, if nothing more is known.
fn wrong_column(line: &[u8]) -> usize {
    match line_fault(line) {
        Some(fault) => fault.column(line),
        None => time_column(line),
    }
}

/// In which column the word is that can't be sent, or to which nothing can be sent.
fn unsent_column(line: &[u8], tree: Option<&Tree>) -> usize {
    match (tree, receiver_column(line)) {
        (Some(tree), Some(column)) if has_signal(tree, name_in(line)) => column,
        _ => name_column(line),
    }
}
