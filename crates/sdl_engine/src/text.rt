//! The whole program over any reader and writer.

ghost use Rattle.std.specs.Prelude.{◌≡◌, ◌≢◌, Bool, IfOk, IfErr, IfSome, None, false, option_map};
ghost use Rattle.std.specs.Io.KnownBytes.{Keeps};
ghost use Rattle.sdl_failures.specs.Ending.{has_failed};
ghost use Rattle.sdl_engine.specs.Answer.{Faulted, Fails, Tells, TellsNoOrder, Written, carried, workers_by};
ghost use Rattle.sdl_engine.specs.Kept.{IsKept, IsLogged, KeepsRun, KnowsFailed, SaysFailed, TellsNone};

use crate::answer::{canonical, refuse, report};
use crate::input::Input;
use crate::notes::{Notes, keep_run, keep_texts, note_failures, note_refusal, silent_notes};
use crate::options::{Command, Options, Outcome, TextFault, View};
use crate::pipeline::{check_input, run_input};
use crate::reading::{read_input, read_source};
use crate::runner::Runner;
use crate::source::Source;
use serial_run::{Listener, Nobody};
use std::alloc::Global;
use std::io::{Read, Write};

/// Reads a specification and its script, and writes what the command asks for: the report of a run, or the
/// specification's canonical text; or the line of a refusal. A text is checked in the order of its layers (tokens,
/// tree, names, script), and the first refusal is the only line. If workers are asked for, and the runner has threads,
/// a run starts that many, and joins them before anything is written. Without threads it is serial, and always returns.
pub fn run_text<E: Runner, R: Read, W: Write>(
    runner: &E,
    alloc: Global,
    reader: &mut R,
    writer: &mut W,
    options: &Options,
) -> Result<Outcome, TextFault>
    ensures ok { IfOk result (λ how. Written (R.remaining reader.old) None (carried E.threaded options.now) how
        (W.contents writer.old) (W.contents writer.new)) }
    ensures err { IfErr result (λ fault. Faulted fault (R.remaining reader.old) None (carried E.threaded options.now)
        (W.contents writer.old) (W.contents writer.new)) }
{
    let input = read_input(alloc, reader)?;
    let mut notes = silent_notes();
    tell(runner, alloc, &input, writer, &mut notes, options, Nobody)
}

/// Does what `run_text` does for the text of a source and its script, and then tells a human more in the notes: why the
/// text is refused, if that is asked for; what cut the run; each failure of an instance, if that is asked for; and from
/// which instance on the order of the run isn't known. The notes keep the run that was told with its texts, if that is
/// asked for, and nothing else. Nothing is kept for the order of the run if nobody asks for that and no order is told. A
/// fault of writing the notes changes nothing. While a serial run goes on, the listener hears how far it is.
pub fn run_and_note<E: Runner, R: Read, S: Read, W: Write, N: Write, L: Listener>(
    runner: &E,
    alloc: Global,
    source: &mut Source<R, S>,
    writer: &mut W,
    notes: &mut Notes<'_, N>,
    options: &Options,
    listener: L,
) -> Result<Outcome, TextFault>
    ensures ok { IfOk result (λ how. Written (R.remaining source.old.text) (option_map S.remaining source.old.script)
        (carried E.threaded options.now) how (W.contents writer.old) (W.contents writer.new)) }
    ensures err { IfErr result (λ fault. Faulted fault (R.remaining source.old.text)
        (option_map S.remaining source.old.script) (carried E.threaded options.now)
        (W.contents writer.old) (W.contents writer.new)) }
    ensures quiet { result ≢ Ok Outcome.TextRefused → result ≢ Ok Outcome.Cut →
        TellsNone notes.old.failures notes.new.failed → TellsNoOrder options.now →
        Keeps (N.contents notes.old.writer) (N.contents notes.new.writer) }
    ensures silent { notes.old.explains ≡ false → result ≢ Ok Outcome.Cut →
        TellsNone notes.old.failures notes.new.failed → TellsNoOrder options.now →
        Keeps (N.contents notes.old.writer) (N.contents notes.new.writer) }
    ensures kept { IfOk result (λ how. IsKept notes.old.keeps (R.remaining source.old.text)
        (option_map S.remaining source.old.script) (carried E.threaded options.now) how notes.new.run notes.new.texts
        notes.new.stuck (W.contents writer.old) (W.contents writer.new)) }
    ensures failed { IfSome notes.new.run (λ run. notes.new.failed ≡ has_failed run.report.records.items) }
    ensures no_log { notes.old.keeps_order ≡ false → TellsNoOrder options.now →
        IfSome notes.new.run (λ run. run.log ≡ None) }
    ensures log { IfSome notes.new.run
        (IsLogged (workers_by E.threaded Command.Run options.now.workers) options.now.limit) }
    ensures told_failed { IfOk result (λ how. KnowsFailed (R.remaining source.old.text)
        (option_map S.remaining source.old.script) (carried E.threaded options.now) how notes.new.stuck notes.new.failed
        (W.contents writer.old) (W.contents writer.new)) }
{
    notes.run = None;
    notes.failed = false;
    let input = read_source(alloc, source)?;
    let explains = notes.explains;
    let told = tell(runner, alloc, &input, writer, notes, options, listener);
    note_refusal(alloc, &input, &told, explains, notes);
    keep_texts(input, notes);
    told
}

/// Writes what the command asks for of an input, or the line of its refusal, and notes what there is to say of a run.
fn tell<E: Runner, W: Write, N: Write, L: Listener>(
    runner: &E,
    alloc: Global,
    input: &Input,
    writer: &mut W,
    notes: &mut Notes<'_, N>,
    options: &Options,
    listener: L,
) -> Result<Outcome, TextFault>
    ensures ok { IfOk result (λ how. Tells input.now (carried E.threaded options.now) how
        (W.contents writer.old) (W.contents writer.new)) }
    ensures err { IfErr result (λ fault. Fails fault input.now (carried E.threaded options.now)
        (W.contents writer.old) (W.contents writer.new)) }
    ensures quiet { result ≢ Ok Outcome.Cut → TellsNone notes.old.failures notes.new.failed →
        TellsNoOrder options.now → Keeps (N.contents notes.old.writer) (N.contents notes.new.writer) }
    ensures kept { notes.old.run ≡ None → IfOk result (λ how. KeepsRun notes.old.keeps input.now
        (carried E.threaded options.now) how notes.new.run notes.new.stuck
        (W.contents writer.old) (W.contents writer.new)) }
    ensures failed { notes.old.run ≡ None →
        IfSome notes.new.run (λ run. notes.new.failed ≡ has_failed run.report.records.items) }
    ensures no_log { notes.old.run ≡ None → notes.old.keeps_order ≡ false → TellsNoOrder options.now →
        IfSome notes.new.run (λ run. run.log ≡ None) }
    ensures log { notes.old.run ≡ None → IfSome notes.new.run
        (IsLogged (workers_by E.threaded Command.Run options.now.workers) options.now.limit) }
    ensures told_failed { notes.old.failed ≡ false → IfOk result (λ how. SaysFailed input.now
        (carried E.threaded options.now) how notes.new.stuck notes.new.failed
        (W.contents writer.old) (W.contents writer.new)) }
{
    match options.command {
        Command::Check => tell_check(alloc, input, writer, options),
        Command::Run => tell_run(runner, alloc, input, writer, notes, options, listener),
    }
}

/// Writes the canonical text of an input's specification, or the line of its refusal. It has no use for threads.
fn tell_check<W: Write>(
    alloc: Global,
    input: &Input,
    writer: &mut W,
    options: &Options,
) -> Result<Outcome, TextFault>
    requires { options.now.command ≡ Command.Check }
    ensures ok { (threaded : Bool) → IfOk result (λ how. Tells input.now (carried threaded options.now) how
        (W.contents writer.old) (W.contents writer.new)) }
    ensures err { (threaded : Bool) → IfErr result (λ fault. Fails fault input.now (carried threaded options.now)
        (W.contents writer.old) (W.contents writer.new)) }
{
    match check_input(alloc, input) {
        Ok(text) => canonical(text.as_str(), writer),
        Err(refusal) => refuse(alloc, &refusal, writer),
    }
}

/// Runs an input and writes the report, or the line of its refusal.
fn tell_run<E: Runner, W: Write, N: Write, L: Listener>(
    runner: &E,
    alloc: Global,
    input: &Input,
    writer: &mut W,
    notes: &mut Notes<'_, N>,
    options: &Options,
    listener: L,
) -> Result<Outcome, TextFault>
    requires { options.now.command ≡ Command.Run }
    ensures ok { IfOk result (λ how. Tells input.now (carried E.threaded options.now) how
        (W.contents writer.old) (W.contents writer.new)) }
    ensures err { IfErr result (λ fault. Fails fault input.now (carried E.threaded options.now)
        (W.contents writer.old) (W.contents writer.new)) }
    ensures quiet { result ≢ Ok Outcome.Cut → TellsNone notes.old.failures notes.new.failed →
        TellsNoOrder options.now → Keeps (N.contents notes.old.writer) (N.contents notes.new.writer) }
    ensures kept { notes.old.run ≡ None → IfOk result (λ how. KeepsRun notes.old.keeps input.now
        (carried E.threaded options.now) how notes.new.run notes.new.stuck
        (W.contents writer.old) (W.contents writer.new)) }
    ensures failed { notes.old.run ≡ None →
        IfSome notes.new.run (λ run. notes.new.failed ≡ has_failed run.report.records.items) }
    ensures no_log { notes.old.run ≡ None → notes.old.keeps_order ≡ false → TellsNoOrder options.now →
        IfSome notes.new.run (λ run. run.log ≡ None) }
    ensures log { notes.old.run ≡ None → IfSome notes.new.run
        (IsLogged (workers_by E.threaded Command.Run options.now.workers) options.now.limit) }
    ensures told_failed { notes.old.failed ≡ false → IfOk result (λ how. SaysFailed input.now
        (carried E.threaded options.now) how notes.new.stuck notes.new.failed
        (W.contents writer.old) (W.contents writer.new)) }
{
    let keeps = notes.keeps;
    let tells = notes.failures;
    let keeps_order = may_tell_order(options.view, notes.keeps_order);
    match run_input(runner, alloc, input, options, keeps_order, listener) {
        Ok(run) => {
            let told = report(runner, alloc, &run, writer, notes, options);
            note_failures(alloc, input, &run, tells, notes);
            keep_run(run, keeps, notes);
            told
        }
        Err(refusal) => refuse(alloc, &refusal, writer),
    }
}

/// Whether an order may be told of a run: its view has one, or what tells it is kept for others.
fn may_tell_order(view: View, keeps_order: bool) -> bool
    ensures { view ≡ View.Trace → result ≡ keeps_order }
{
    match view {
        View::Trace => keeps_order,
        View::Lines | View::Json => true,
    }
}
