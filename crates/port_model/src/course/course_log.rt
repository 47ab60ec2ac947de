//! What is kept of an instance while the run goes on.

ghost use Rattle.std.specs.Prelude.{◌≡◌, [], None, Some};

use crate::course::kept_words::KeptWords;
use std::alloc::Global;

/// What is kept beside the record of an instance: of each step that is recorded how many entries were drawn after it,
/// and the versions of the roster that it saw or made.
#[derive(Drop)]
pub struct CourseLog {
    pub drawn: KeptWords,
    pub versions: KeptWords,
}

impl CourseLog {
    /// Nothing is kept.
    pub fn off() -> Self
        ensures { result ≡ record { drawn = None; versions = None } }
    {
        CourseLog {
            drawn: KeptWords::off(),
            versions: KeptWords::off(),
        }
    }

    /// Nothing is noted yet. Takes no memory.
    pub fn new(alloc: Global) -> Self
        ensures { result ≡ record { drawn = Some []; versions = Some [] } }
    {
        CourseLog {
            drawn: KeptWords::new(alloc),
            versions: KeptWords::new(alloc),
        }
    }
}
