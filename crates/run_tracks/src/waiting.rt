//! Whose record waits until something has come so far.

ghost use Rattle.std.specs.Prelude.{◌≡◌, ◌<◌, [], All, IfNone, MatchOption, OnErr, OnOk};
ghost use Rattle.run_tracks.specs.Waiting.{IsTakenBy, waiting, with_waiting};

use std::alloc::{AllocError, Global};
use std::collections::BTreeSet;
use std::marker::Model;

/// The record of an instance that waits, and for how much.
#[derive(Clone, Copy, PartialEq, Eq, PartialOrd, Ord)]
pub struct Waiting {
    pub until: u64,
    pub number: u32,
}

/// The records that wait until something that grows has come so far: the clock, or the version of the roster.
#[derive(Drop)]
pub struct WaitList {
    list: BTreeSet<Waiting>,
}

impl Model for WaitList {
    ghost use Rattle.run_tracks.specs.Waiting.{WaitingList};

    ghost Value = { WaitingList };

    ghost view = { λ w. w.list.keys };
}

impl WaitList {
    /// No record waits. Takes no memory.
    pub fn new(alloc: Global) -> Self
        ensures { result ≡ [] }
    {
        WaitList {
            list: BTreeSet::new(alloc),
        }
    }

    /// The record of this number waits. For lack of memory nothing changes.
    pub fn add(&mut self, until: u64, number: u32) -> Result<(), AllocError>
        ensures ok { OnOk result (self.new ≡ with_waiting (waiting until number) self.old) }
        ensures err { OnErr result (self.new ≡ self.old) }
    {
        self.list.insert(Waiting { until, number })?;
        Ok(())
    }

    /// Takes out a record that waits no longer, as it has come so far. None: all others wait still.
    pub fn pop(&mut self, now: u64) -> Option<u32>
        ensures next { MatchOption result (All (λ w. now < w.until) self.old) (IsTakenBy now self.old self.new) }
        ensures none { IfNone result (self.new ≡ self.old) }
    {
        match self.list.first() {
            Some(first) if first.until <= now => {}
            _ => return None,
        }
        let first = self.list.pop_first()?;
        Some(first.number)
    }
}
