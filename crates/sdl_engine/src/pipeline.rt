//! An input taken, checked and run: from its bytes to the canonical text of its specification, or to a report.

ghost use Rattle.std.specs.Prelude.{◌≡◌, IfOk, IfErr, None, false};
ghost use Rattle.std.specs.String.{string_bytes};
ghost use Rattle.sdl_tree.specs.Views.{tree_value};
ghost use Rattle.sdl_engine.specs.Answer.{Allows, AllowsOf, IsAccepted, IsRunOf, IsRunOfInput, IsTextRefused, Prints, PrintsInput, workers_by};
ghost use Rattle.sdl_engine.specs.Kept.{IsLogged};

use crate::input::Input;
use crate::options::{Command, Options};
use crate::refusal::Refusal;
use crate::run::Run;
use crate::runner::{Ran, Runner};
use crate::texts::Texts;
use sdl_build::build;
use sdl_lex::LexError;
use sdl_parse::{ParseError, parse};
use sdl_print::print;
use sdl_script::{Script, read_script};
use sdl_system::System;
use sdl_tree::Tree;
use serial_run::Listener;
use std::alloc::Global;

/// An accepted input: the tree of its specification, the system of the tree, and the script for it.
#[derive(Drop)]
struct Accepted {
    tree: Tree,
    system: System,
    script: Script,
}

impl Accepted {
    /// Its run, of which this came.
    fn into_run(self, ran: Ran) -> Run
        ensures system { result.system ≡ self.system }
        ensures report { result.report ≡ ran.report }
        ensures script { result.script ≡ self.script }
        ensures log { result.log ≡ ran.log }
    {
        Run {
            tree: self.tree,
            system: self.system,
            script: self.script,
            report: ran.report,
            log: ran.log,
        }
    }
}

/// Takes an input: its tokens and tree, its system and its script, in this order. The first fault refuses it.
fn accept(alloc: Global, texts: &Texts) -> Result<Accepted, Refusal>
    ensures ok { IfOk result (λ accepted.
        IsAccepted texts.now (tree_value accepted.tree) accepted.system accepted.script.lines.items) }
    ensures err { IfErr result (IsTextRefused texts.now) }
{
    let (specification, script) = texts.parts();
    let tree = match parse(alloc, specification) {
        Ok(tree) => tree,
        Err(error) => return Err(Refusal::Parse(error)),
    };
    let system = match build(alloc, &tree) {
        Ok(system) => system,
        Err(error) => return Err(Refusal::Build(error)),
    };
    match read_script(alloc, &system, script) {
        Ok(script) => Ok(Accepted {
            tree,
            system,
            script,
        }),
        Err(error) => Err(Refusal::Script(error)),
    }
}

/// The canonical text of an input's specification that has a system, and behind which a script for it stands, or why
/// there is none.
pub fn check_input(alloc: Global, input: &Input) -> Result<String, Refusal>
    ensures ok { IfOk result (λ text. PrintsInput input.now (string_bytes text)) }
    ensures err { IfErr result (Allows Command.Check None input.now) }
{
    match input {
        Input::Held(texts) => check_texts(alloc, texts),
        Input::TooLong => Err(Refusal::Parse(ParseError::Lex(LexError::TooLong))),
    }
}

fn check_texts(alloc: Global, texts: &Texts) -> Result<String, Refusal>
    ensures ok { IfOk result (λ text. Prints texts.now (string_bytes text)) }
    ensures err { IfErr result (AllowsOf Command.Check None texts.now) }
{
    let accepted = accept(alloc, texts)?;
    match print(alloc, &accepted.tree) {
        Ok(text) => Ok(text),
        Err(_) => Err(Refusal::Parse(ParseError::Memory)),
    }
}

/// The run of an input, cut after so many transitions, or why there is none. While a serial run goes on, the listener
/// hears how far it is. What tells the order of the run is kept, if that is asked for and there is memory for it.
pub fn run_input<E: Runner, L: Listener>(
    runner: &E,
    alloc: Global,
    input: &Input,
    options: &Options,
    keeps_order: bool,
    listener: L,
) -> Result<Run, Refusal>
    ensures ok { IfOk result (λ run. IsRunOfInput input.now (workers_by E.threaded Command.Run options.now.workers)
        options.now.limit run.system run.report run.script.lines.items run.log) }
    ensures off { keeps_order ≡ false → IfOk result (λ run. run.log ≡ None) }
    ensures log { IfOk result
        (IsLogged (workers_by E.threaded Command.Run options.now.workers) options.now.limit) }
    ensures err { IfErr result (Allows Command.Run (workers_by E.threaded Command.Run options.now.workers) input.now) }
{
    match input {
        Input::Held(texts) => run_texts(runner, alloc, texts, options, keeps_order, listener),
        Input::TooLong => Err(Refusal::Parse(ParseError::Lex(LexError::TooLong))),
    }
}

fn run_texts<E: Runner, L: Listener>(
    runner: &E,
    alloc: Global,
    texts: &Texts,
    options: &Options,
    keeps_order: bool,
    listener: L,
) -> Result<Run, Refusal>
    ensures ok { IfOk result (λ run. IsRunOf texts.now (workers_by E.threaded Command.Run options.now.workers)
        options.now.limit run.system run.report run.script.lines.items run.log) }
    ensures off { keeps_order ≡ false → IfOk result (λ run. run.log ≡ None) }
    ensures log { IfOk result
        (IsLogged (workers_by E.threaded Command.Run options.now.workers) options.now.limit) }
    ensures err { IfErr result
        (AllowsOf Command.Run (workers_by E.threaded Command.Run options.now.workers) texts.now) }
{
    let accepted = accept(alloc, texts)?;
    let (system, script) = (&accepted.system, &accepted.script);
    match runner.run(
        alloc,
        system,
        script,
        options.workers,
        options.limit,
        keeps_order,
        listener,
    ) {
        Ok(ran) => Ok(accepted.into_run(ran)),
        Err(error) => Err(Refusal::Run(error)),
    }
}
