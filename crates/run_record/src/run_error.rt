//! Why a run has no report.

use std::alloc::{AllocError, AllocFailed};
use std::error::Error;
use std::fmt;

/// Why a run has no report.
#[derive(Clone, Copy, Debug, PartialEq, Eq)]
pub enum RunError {
    /// No memory for the instances, for what is sent, or for the records.
    Memory,
    /// A run on threads lost something, or can't tell that it did not: an instance, a signal or an expiry is missing when
    /// all workers have ended, or what is recorded breaks what a report has to be. With the number of the instance at
    /// which that was found. A run on one thread never loses anything.
    Lost(u32),
}

/// The line that tells it, without its end.
impl fmt::Display for RunError {
    ghost use Rattle.std.specs.Prelude.{Some};
    ghost use Rattle.run_record.specs.RunError.{run_text};

    ghost output = { λ error. Some (run_text error) };

    fn fmt<W: fmt::Write>(&self, f: &mut fmt::Formatter<W>) -> fmt::Result {
        match self {
            RunError::Memory => write!(f, "run Memory"),
            RunError::Lost(number) => write!(f, "run Lost #{number}"),
        }
    }
}

impl Error for RunError {}

impl<T: Drop> From<AllocFailed<T>> for RunError {
    ghost use Rattle.std.specs.Prelude.{◌≡◌};
    ghost use Rattle.run_record.specs.declared.run_error.RunError.TheVariants.{Memory};

    ghost from_gives = { λ _ error. error ≡ Memory };

    fn from(_failed: AllocFailed<T>) -> RunError {
        RunError::Memory
    }
}

impl From<AllocError> for RunError {
    ghost use Rattle.std.specs.Prelude.{◌≡◌};
    ghost use Rattle.run_record.specs.declared.run_error.RunError.TheVariants.{Memory};

    ghost from_gives = { λ _ error. error ≡ Memory };

    fn from(_failed: AllocError) -> RunError {
        RunError::Memory
    }
}
