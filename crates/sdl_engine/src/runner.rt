//! Who makes the steps of a run, and the text of its report.

ghost use Rattle.std.specs.Prelude.{◌≡◌, All, Bool, IfErr, IfOk, IfSome, List, None, OnErr, OnOk, false};
ghost use Rattle.std.specs.Io.KnownBytes.{Appends};
ghost use Rattle.run_semantics.specs.Behaves.{AreBehaviours};
ghost use Rattle.sdl_engine.specs.Answer.{IsReportBy, workers_by};
ghost use Rattle.sdl_engine.specs.Log.{IsLogBy};
ghost use Rattle.sdl_engine.specs.declared.options.Command.TheVariants.{Run};
ghost use Rattle.sdl_report.specs.Gathered.{BreaksOff};
ghost use Rattle.sdl_report.specs.ReportText.{report_text};
ghost use Rattle.sdl_script.specs.Script.{SendsFromEnv};
ghost use Rattle.sdl_system.specs.Behaviour.{Behaviour};

use run_record::{Report, RunError};
use sdl_report::WriteFault;
use sdl_script::Script;
use sdl_system::System;
use serial_run::Listener;
use std::alloc::Global;
use std::io::Write;
use view_run::OrderLog;

/// What comes of a run.
#[derive(Drop)]
pub struct Ran {
    pub report: Report,
    /// What was kept so that its order can be told.
    pub log: Option<OrderLog>,
}

/// Who makes the steps of a run, and the text of its report: the thread that calls, and workers, if there are threads
/// for them and some are asked for.
pub trait Runner {
    /// Whether there are threads. Without them each run is serial.
    ghost threaded: { Bool };

    /// Runs a system on a script, cut after so many transitions. While a serial run goes on, the listener hears how far
    /// it is. What tells the order of the run is kept beside the report, if that is asked for and there is memory for it.
    /// That the script is one for the system is the caller's condition.
    fn run<L: Listener>(
        &self,
        alloc: Global,
        system: &System,
        script: &Script,
        workers: Option<u8>,
        limit: u64,
        keeps_order: bool,
        listener: L,
    ) -> Result<Ran, RunError>
        requires { All (SendsFromEnv system.now) script.now.lines.items }
        ensures report { IfOk result (λ ran. (ps : List Behaviour) → AreBehaviours system.now ps
            → IsReportBy (workers_by Self.threaded Run workers) ps system.now script.now.lines.items limit
            ran.report) }
        ensures log { IfOk result (λ ran. (ps : List Behaviour) → AreBehaviours system.now ps
            → IfSome ran.log (IsLogBy (workers_by Self.threaded Run workers) ps system.now script.now.lines.items limit
            ran.report)) }
        ensures off { keeps_order ≡ false → IfOk result (λ ran. ran.log ≡ None) }
        ensures err { workers_by Self.threaded Run workers ≡ None → IfErr result (λ why. why ≡ RunError.Memory) };

    /// Writes a report. So many workers make its text, if there are threads for them.
    fn write_report<W: Write>(
        &self,
        alloc: Global,
        workers: Option<u8>,
        report: &Report,
        system: &System,
        writer: &mut W,
    ) -> Result<(), WriteFault>
        ensures ok { OnOk result (Appends (W.contents writer.old) (W.contents writer.new)
            (report_text system.now report.now)) }
        ensures err { OnErr result (BreaksOff (W.contents writer.old) (W.contents writer.new)
            (report_text system.now report.now)) };
}
