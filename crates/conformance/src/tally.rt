//! The counts of the last line.

ghost use Rattle.std.specs.Prelude.{◌≡◌, ◌+◌, ◌<◌, ◌^◌};

use crate::judge::Verdict;
use std::fmt;

/// How many cases were judged, and how many of them with each verdict.
#[derive(Clone, Copy)]
pub struct Counts {
    pub cases: usize,
    pub as_wanted: usize,
    pub differ: usize,
}

impl Counts {
    ghost use Rattle.conformance.specs.Tally.{AddsUp, counted, no_counts};

    /// The counts before the first case.
    pub fn new() -> Counts
        ensures { result ≡ no_counts }
    {
        Counts {
            cases: 0,
            as_wanted: 0,
            differ: 0,
        }
    }

    /// Counts one more case.
    pub fn count(&mut self, verdict: &Verdict)
        requires room { self.old.cases + 1 < 2 ^ 64 }
        requires adds_up { AddsUp self.old }
        ensures counted { self.new ≡ counted self.old verdict.now }
    {
        self.cases += 1;
        match verdict {
            Verdict::AsWanted => self.as_wanted += 1,
            Verdict::Differs(_) => self.differ += 1,
        }
    }
}

impl fmt::Display for Counts {
    fn fmt<W: fmt::Write>(&self, f: &mut fmt::Formatter<W>) -> fmt::Result {
        let Counts {
            cases,
            as_wanted,
            differ,
        } = *self;
        write!(f, "{cases} cases: {as_wanted} as wanted, {differ} differ")
    }
}
