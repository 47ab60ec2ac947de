//! What is wrong with a line of a script.

ghost use Rattle.std.specs.Prelude.{◌≡◌};
ghost use Rattle.sdl_script.specs.ScriptText.{refusal};

use crate::script::ScriptError;
use std::alloc::{AllocError, AllocFailed};

/// The fault of a line whose number isn't known yet.
#[derive(Clone, Copy)]
pub enum Fault {
    Syntax,
    BackInTime,
    UnknownSignal,
    Arguments,
    Memory,
}

impl Fault {
    /// The refusal of the script, where this is the fault of the line of that number.
    pub fn at(self, line: usize) -> ScriptError
        ensures { result ≡ refusal self line }
    {
        match self {
            Fault::Syntax => ScriptError::Syntax(line),
            Fault::BackInTime => ScriptError::BackInTime(line),
            Fault::UnknownSignal => ScriptError::UnknownSignal(line),
            Fault::Arguments => ScriptError::Arguments(line),
            Fault::Memory => ScriptError::Memory,
        }
    }
}

impl From<AllocError> for Fault {
    ghost use Rattle.std.specs.Prelude.{◌≡◌};
    ghost use Rattle.sdl_script.specs.declared.fault.Fault.TheVariants.{Memory};

    ghost from_gives = { λ _ fault. fault ≡ Memory };

    fn from(_error: AllocError) -> Fault {
        Fault::Memory
    }
}

impl<T: Drop> From<AllocFailed<T>> for Fault {
    ghost use Rattle.std.specs.Prelude.{◌≡◌};
    ghost use Rattle.sdl_script.specs.declared.fault.Fault.TheVariants.{Memory};

    ghost from_gives = { λ _ fault. fault ≡ Memory };

    fn from(_failed: AllocFailed<T>) -> Fault {
        Fault::Memory
    }
}
