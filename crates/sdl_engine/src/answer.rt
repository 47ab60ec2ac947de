//! What is written of a text: its run, a canonical text, or the line of a refusal.

ghost use Rattle.std.specs.Prelude.{◌≡◌, ◌≢◌, IfOk, IfErr, OnOk};
ghost use Rattle.std.specs.Io.KnownBytes.{Appends, Keeps};
ghost use Rattle.sdl_engine.specs.Answer.{BreaksOff, FailsToTell, FailsToTellRun, TellsRun, outcome_by, outcome_of};
ghost use Rattle.sdl_engine.specs.RefusalText.{refusal_line};

use crate::notes::{Notes, note_run};
use crate::options::{Options, Outcome, TextFault, View};
use crate::refusal::Refusal;
use crate::refusal_text::{fixed_line, refusal_line};
use crate::run::Run;
use crate::runner::Runner;
use crate::views::write_view;
use sdl_report::write_text;
use std::alloc::Global;
use std::io::Write;

/// Writes a run in the view that is asked for, and then notes what there is to say of it.
pub fn report<E: Runner, W: Write, N: Write>(
    runner: &E,
    alloc: Global,
    run: &Run,
    writer: &mut W,
    notes: &mut Notes<'_, N>,
    options: &Options,
) -> Result<Outcome, TextFault>
    ensures how { IfOk result (λ how. how ≡ outcome_by run.now.report.whole) }
    ensures ok { OnOk result (TellsRun options.now.view run.now.log run.now.system run.now.report
        run.now.script.lines.items notes.new.stuck (W.contents writer.old) (W.contents writer.new)) }
    ensures err { IfErr result (λ fault. FailsToTellRun fault options.now.view run.now.log run.now.system
        run.now.report run.now.script.lines.items (W.contents writer.old) (W.contents writer.new)) }
    ensures quiet { result ≢ Ok Outcome.Cut → options.now.view ≡ View.Trace →
        Keeps (N.contents notes.old.writer) (N.contents notes.new.writer) }
{
    let stuck = write_view(runner, alloc, run, options.view, options.workers, writer)?;
    let outcome = outcome(run.report.whole);
    note_run(alloc, run, outcome, stuck, notes);
    Ok(outcome)
}

/// The outcome of a run, by whether its report is whole.
fn outcome(whole: bool) -> Outcome
    ensures { result ≡ outcome_by whole }
{
    if whole { Outcome::Whole } else { Outcome::Cut }
}

/// Writes a canonical text.
pub fn canonical<W: Write>(text: &str, writer: &mut W) -> Result<Outcome, TextFault>
    ensures how { IfOk result (λ how. how ≡ Outcome.Whole) }
    ensures ok { OnOk result (Appends (W.contents writer.old) (W.contents writer.new) text.now) }
    ensures err { IfErr result (λ fault. BreaksOff fault text.now (W.contents writer.old) (W.contents writer.new)) }
{
    write_as(Outcome::Whole, text, writer)
}

/// Writes the line of a refusal.
pub fn refuse<W: Write>(
    alloc: Global,
    refusal: &Refusal,
    writer: &mut W,
) -> Result<Outcome, TextFault>
    ensures how { IfOk result (λ how. how ≡ outcome_of refusal.now) }
    ensures ok { OnOk result (Appends (W.contents writer.old) (W.contents writer.new) (refusal_line refusal.now)) }
    ensures err { IfErr result (λ fault. FailsToTell fault (refusal_line refusal.now)
        (W.contents writer.old) (W.contents writer.new)) }
{
    if let Some(line) = fixed_line(refusal) {
        return write_as(refusal.outcome(), line, writer);
    }
    match refusal_line(alloc, refusal) {
        Ok(line) => write_as(refusal.outcome(), line.as_str(), writer),
        Err(_) => Err(TextFault::Memory),
    }
}

/// Writes a text that has this outcome.
fn write_as<W: Write>(outcome: Outcome, text: &str, writer: &mut W) -> Result<Outcome, TextFault>
    ensures how { IfOk result (λ how. how ≡ outcome) }
    ensures ok { OnOk result (Appends (W.contents writer.old) (W.contents writer.new) text.now) }
    ensures err { IfErr result (λ fault. BreaksOff fault text.now (W.contents writer.old) (W.contents writer.new)) }
{
    write_text(writer, text.as_bytes())?;
    Ok(outcome)
}
