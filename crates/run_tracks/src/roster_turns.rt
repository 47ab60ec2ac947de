//! In which order who lives changes, and is looked up.

ghost use Rattle.std.specs.Prelude.{◌≡◌, ◌↔◌, ◌<◌, [], All, IfNone, IsTrue, MatchOption, OnErr, OnOk, slice_index, Some};
ghost use Rattle.run_tracks.specs.RosterTurns.{IsOpenAfter, IsTurn, after_turn, needed, turn_of, turn_to, with_look, with_wait};
ghost use Rattle.run_tracks.specs.Waiting.{IsTakenBy};

use crate::by_number::{lower, raise, value_at};
use crate::waiting::WaitList;
use run_record::Entry;
use sdl_system::Dest;
use std::alloc::{AllocError, Global};
use std::marker::Model;

/// How many changes of the roster are told, how many look-ups of each version are still to be told, and whose records
/// wait for a version.
#[derive(Drop)]
pub struct RosterTurns {
    told: u32,
    /// By the version.
    looks: Vec<u32>,
    waiting: WaitList,
}

impl Model for RosterTurns {
    ghost use Rattle.run_tracks.specs.RosterTurns.{TurnsState};

    ghost Value = { TurnsState };

    ghost view = { λ r. record { told = r.told; looks = r.looks.items; waiting = r.waiting } };
}

/// What an event does to the roster.
#[derive(Clone, Copy, PartialEq, Eq)]
pub enum Turn {
    /// It looks who lives.
    Look,
    /// It changes who lives.
    Change,
}

/// No version is above this: there are at most 1,000 creates and as many ends.
const MOST_VERSIONS: u32 = 2_000;

impl RosterTurns {
    /// Nothing is told. The system begins with so many instances, each of which was a change. Takes no memory.
    pub fn new(alloc: Global, first: u32) -> Self
        ensures { result ≡ record { told = first; looks = []; waiting = [] } }
    {
        RosterTurns {
            told: first,
            looks: Vec::new(alloc),
            waiting: WaitList::new(alloc),
        }
    }

    /// One more look-up is to be told of this version. For lack of memory nothing changes.
    pub fn add_look(&mut self, version: u32) -> Result<(), AllocError>
        ensures ok { OnOk result (self.new ≡ with_look self.old version) }
        ensures err { OnErr result (self.new ≡ self.old) }
    {
        if version > MOST_VERSIONS {
            return Ok(());
        }
        raise(&mut self.looks, version)
    }

    /// Whether an event of this version may be told now: a look-up, where so many changes are told; a change, where it
    /// is the next, and all look-ups before it are told.
    pub fn may_tell(&self, turn: Turn, version: u32) -> bool
        ensures { IsTrue result ↔ IsTurn self.now turn version }
    {
        match turn {
            Turn::Look => version == self.told,
            Turn::Change => self.is_next(version) && self.looks_left() == 0,
        }
    }

    /// Whether the next change makes this version.
    fn is_next(&self, version: u32) -> bool
        ensures { IsTrue result ↔ (needed Turn.Change version ≡ Some self.now.told) }
    {
        match version.checked_sub(1) {
            Some(told) => told == self.told,
            None => false,
        }
    }

    /// An event of the present version is told. Says whether those who wait may go on.
    pub fn pass(&mut self, turn: Turn) -> bool
        ensures after { self.new ≡ after_turn turn self.old }
        ensures open { IsTrue result ↔ IsOpenAfter turn self.new }
    {
        match turn {
            Turn::Change => {
                self.told = self.told.saturating_add(1);
                true
            }
            Turn::Look => {
                lower(&mut self.looks, self.told);
                self.looks_left() == 0
            }
        }
    }

    /// The record of this number waits until an event of a version may be told. For lack of memory nothing changes.
    pub fn wait(&mut self, turn: Turn, version: u32, number: u32) -> Result<(), AllocError>
        ensures ok { OnOk result (self.new ≡ with_wait (needed turn version) number self.old) }
        ensures err { OnErr result (self.new ≡ self.old) }
    {
        match needed(turn, version) {
            Some(changes) => self.waiting.add(u64::from(changes), number),
            None => Ok(()),
        }
    }

    /// Takes out one of those who wait for no more changes than are told.
    pub fn waken(&mut self) -> Option<u32>
        ensures next { MatchOption result (All (λ w. self.old.told < w.until) self.old.waiting)
            (IsTakenBy self.old.told self.old.waiting self.new.waiting) }
        ensures none { IfNone result (self.new.waiting ≡ self.old.waiting) }
        ensures told { self.new.told ≡ self.old.told }
        ensures looks { self.new.looks ≡ self.old.looks }
    {
        self.waiting.pop(u64::from(self.told))
    }

    /// How many look-ups of the present version are still to be told.
    fn looks_left(&self) -> u32
        ensures { result ≡ slice_index self.now.looks self.now.told }
    {
        value_at(&self.looks, self.told)
    }
}

/// How many changes have to be told before an event of a version. None: no change makes the version 0.
fn needed(turn: Turn, version: u32) -> Option<u32>
    ensures { result ≡ needed turn version }
{
    match turn {
        Turn::Look => Some(version),
        Turn::Change => version.checked_sub(1),
    }
}

/// What the event of an entry does to the roster.
pub fn turn_of(entry: Entry) -> Option<Turn>
    ensures { result ≡ turn_of entry }
{
    match entry {
        Entry::Output { to, .. } => turn_to(to),
        Entry::Create { pid: None, .. } => Some(Turn::Look),
        Entry::Create { pid: Some(_), .. }
        | Entry::Stop
        | Entry::Failed { .. }
        | Entry::FailedAt { .. } => Some(Turn::Change),
        Entry::Start { .. }
        | Entry::Consumed { .. }
        | Entry::Prior { .. }
        | Entry::Discarded { .. }
        | Entry::Provided { .. }
        | Entry::Task { .. }
        | Entry::Set { .. }
        | Entry::Reset { .. }
        | Entry::NextState { .. }
        | Entry::Rest { .. }
        | Entry::Cut { .. } => None,
    }
}

/// What an output to this destination does to the roster: it is looked up, unless a Pid is named.
fn turn_to(to: Dest) -> Option<Turn>
    ensures { result ≡ turn_to to }
{
    match to {
        Dest::Path | Dest::Process(_) => Some(Turn::Look),
        Dest::Pid(_) => None,
    }
}
