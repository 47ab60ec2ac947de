//! What is asked for, and what came of it.

ghost use Rattle.std.specs.Prelude.{◌≡◌, ◌↔◌, IsTrue, false};
ghost use Rattle.sdl_engine.specs.Answer.{IsSerial, carried};

use sdl_report::WriteFault;
use thiserror::Error;

/// A command, by the text that it asks for.
#[derive(Clone, Copy, PartialEq, Eq)]
pub enum Command {
    /// The canonical text of the specification, where its system can be built and the script is one for it.
    Check,
    /// The report of a run of the specification on the script.
    Run,
}

/// How a run is told.
#[derive(Clone, Copy, PartialEq, Eq)]
pub enum View {
    /// The report: what each instance did.
    Trace,
    /// The lines of the report in the order of the run.
    Lines,
    /// A JSON object for each transition, in the order of the run.
    Json,
}

/// The command for a text, and how it is carried out.
#[derive(Clone, Copy, PartialEq, Eq)]
pub struct Options {
    pub command: Command,
    /// How a run is told. A check has no use for it.
    pub view: View,
    /// How many worker threads run the instances, from 1 to 16. None: the run is serial. A check starts none, nor does
    /// who has no threads: then each run is serial.
    pub workers: Option<u8>,
    /// The number of transitions at which a run is cut, from 1 to 1,000,000,000.
    pub limit: u64,
}

impl Options {
    /// The limit where the command line names none.
    pub const DEFAULT_LIMIT: u64 = 1_000_000;

    /// The greatest limit.
    pub const MOST_LIMIT: u64 = 1_000_000_000;

    /// The most workers.
    pub const MOST_WORKERS: u8 = 16;

    /// Whether no thread is asked for: this is a check, or a run without workers. Then it is carried out the same
    /// without threads as with them.
    #[tactic(auto, using(crate::proofs::AnswerLaws::carried_same))]
    pub fn is_serial(&self) -> bool
        ensures serial { IsTrue result ↔ IsSerial self.now }
        ensures same { IsTrue result → carried false self.now ≡ self.now }
    {
        self.command == Command::Check || self.workers.is_none()
    }
}

/// The outcome, by what was written: the report of a run that is whole, or of one that was cut at its limit; the line
/// that refuses the text; or the line that refuses the run. A text that was checked is whole.
#[derive(Clone, Copy, PartialEq, Eq)]
pub enum Outcome {
    Whole,
    Cut,
    TextRefused,
    RunRefused,
}

/// Why nothing could be said of the text.
#[derive(Clone, Copy, Debug, PartialEq, Eq, Error)]
pub enum TextFault {
    /// The reader answered an error, or was read too often. Nothing was written.
    #[error("read failed")]
    Read,
    /// The writer answered an error. A prefix of the output may have gone out.
    #[error("write failed")]
    Write,
    /// The input could not be held, or the output not be made.
    #[error("out of memory")]
    Memory,
}

impl From<WriteFault> for TextFault {
    ghost use Rattle.std.specs.Prelude.{◌≡◌};
    ghost use Rattle.sdl_engine.specs.Answer.{fault_of};

    ghost from_gives = { λ written fault. fault ≡ fault_of written };

    fn from(fault: WriteFault) -> TextFault {
        match fault {
            WriteFault::Write => TextFault::Write,
            WriteFault::Memory => TextFault::Memory,
        }
    }
}
