//! The lines that tell refusals.

ghost use Rattle.std.specs.Prelude.{◌≡◌, IfOk, IfSome};
ghost use Rattle.std.specs.String.{string_bytes};
ghost use Rattle.run_record.specs.RunError.{run_text};
ghost use Rattle.sdl_build.specs.ErrorText.{build_text};
ghost use Rattle.sdl_lex.specs.ErrorText.{lex_text};
ghost use Rattle.sdl_parse.specs.ErrorText.{parse_text};
ghost use Rattle.sdl_script.specs.ErrorText.{script_text};
ghost use Rattle.sdl_engine.specs.RefusalText.{line_of, refusal_line};

use crate::refusal::Refusal;
use run_record::RunError;
use sdl_build::BuildError;
use sdl_lex::LexError;
use sdl_parse::ParseError;
use sdl_script::ScriptError;
use std::alloc::{AllocError, Global};

/// The line of a refusal by lack of memory, and of a text that is too long. It needs no memory.
pub fn fixed_line(refusal: &Refusal) -> Option<&'static str>
    ensures { IfSome result (λ line. line.now ≡ refusal_line refusal.now) }
{
    match refusal {
        Refusal::Parse(error) => fixed_parse_line(error),
        Refusal::Build(error) => fixed_build_line(error),
        Refusal::Script(error) => fixed_script_line(error),
        Refusal::Run(error) => fixed_run_line(error),
    }
}

fn fixed_parse_line(error: &ParseError) -> Option<&'static str>
    ensures { IfSome result (λ line. line.now ≡ line_of (parse_text error.now)) }
{
    match error {
        ParseError::Lex(error) => fixed_lex_line(error),
        ParseError::Memory => Some("parse Memory\n"),
        _ => None,
    }
}

fn fixed_lex_line(error: &LexError) -> Option<&'static str>
    ensures { IfSome result (λ line. line.now ≡ line_of (lex_text error.now)) }
{
    match error {
        LexError::TooLong => Some("lex 1:1 TooLong\n"),
        LexError::Memory => Some("lex Memory\n"),
        _ => None,
    }
}

fn fixed_build_line(error: &BuildError) -> Option<&'static str>
    ensures { IfSome result (λ line. line.now ≡ line_of (build_text error.now)) }
{
    match error {
        BuildError::Memory => Some("build Memory\n"),
        _ => None,
    }
}

fn fixed_script_line(error: &ScriptError) -> Option<&'static str>
    ensures { IfSome result (λ line. line.now ≡ line_of (script_text error.now)) }
{
    match error {
        ScriptError::Memory => Some("script Memory\n"),
        _ => None,
    }
}

fn fixed_run_line(error: &RunError) -> Option<&'static str>
    ensures { IfSome result (λ line. line.now ≡ line_of (run_text error.now)) }
{
    match error {
        RunError::Memory => Some("run Memory\n"),
        RunError::Lost(_) => None,
    }
}

/// The line of a refusal.
pub fn refusal_line(alloc: Global, refusal: &Refusal) -> Result<String, AllocError>
    ensures { IfOk result (λ line. string_bytes line ≡ refusal_line refusal.now) }
{
    format!(in alloc; "{refusal}\n")
}
