//! How far a record is told.

ghost use Rattle.std.specs.Prelude.{◌≡◌, ◌&&◌, [], OnErr, OnOk, drop, nat_lt, not, slice_get, slice_index};
ghost use Rattle.run_tracks.specs.ByNumber.{lowered, raised};
ghost use Rattle.run_tracks.specs.Track.{AreLeft, IsTold, is_closing, time_of, with_next};

use crate::by_number::{lower, raise, value_at};
use crate::words::Words;
use port_model::Ticks;
use run_record::{Entry, Reader, Record};
use std::alloc::{AllocError, Global};
use std::marker::Model;

/// A record, with what is left of it and of its course.
#[derive(Drop)]
pub struct Track<'r> {
    /// The next event that isn't told.
    next: Option<Entry>,
    /// Those after it.
    events: Reader<'r>,
    /// For each step that isn't told, how many entries were drawn after it.
    drawn: &'r [u32],
    /// The versions of the roster that its events are still to see or make.
    versions: &'r [u32],
    /// By the number of an instance, how many of the signals to it are lost, since it isn't there yet.
    lost: Vec<u32>,
}

impl<'r> Model for Track<'r> {
    ghost use Rattle.run_tracks.specs.Track.{TrackState};

    ghost Value = { TrackState };

    ghost view = { λ t. record {
      next = t.next;
      later = t.events;
      drawn = t.drawn.now;
      versions = t.versions.now;
      lost = t.lost.items;
    } };
}

impl<'r> Track<'r> {
    /// A record of which nothing is told.
    pub fn new(alloc: Global, trace: &'r Record, words: Words<'r>) -> Self
        ensures events { AreLeft trace.now.events result }
        ensures drawn { result.drawn ≡ words.entry.drawn.now }
        ensures versions { result.versions ≡ words.entry.versions.now }
        ensures lost { result.lost ≡ [] }
    {
        let mut track = Track {
            next: None,
            events: trace.reader(),
            drawn: words.drawn,
            versions: words.versions,
            lost: Vec::new(alloc),
        };
        track.pass_event();
        track
    }

    /// One more signal to this instance is to be lost. For lack of memory nothing changes.
    pub fn add_lost(&mut self, number: u32) -> Result<(), AllocError>
        ensures ok { OnOk result (self.new ≡ record self.old { lost = raised self.old.lost number }) }
        ensures err { OnErr result (self.new ≡ self.old) }
    {
        raise(&mut self.lost, number)
    }

    /// Whether a signal to this instance is to be lost. It is to be lost no more then.
    pub fn take_lost(&mut self, number: u32) -> bool
        ensures lost { result ≡ nat_lt 0 (slice_index self.old.lost number) }
        ensures lowered { self.new ≡ record self.old { lost = lowered self.old.lost number } }
    {
        let was_lost = self.loses_to(number);
        lower(&mut self.lost, number);
        was_lost
    }

    /// Whether the next signal to this instance is to be lost.
    pub fn loses_to(&self, number: u32) -> bool
        ensures { result ≡ nat_lt 0 (slice_index self.now.lost number) }
    {
        value_at(&self.lost, number) > 0
    }

    /// The events after the next one.
    pub fn later(&self) -> Reader<'r>
        ensures { result ≡ self.now.later }
    {
        self.events.again()
    }

    /// Whether all is told, except for the event that closes the record.
    pub fn is_told(&self) -> bool
        ensures { result ≡ is_closing self.now.next }
    {
        match self.next {
            None | Some(Entry::Rest { .. } | Entry::Cut { .. }) => true,
            Some(_) => false,
        }
    }

    /// The time of the next step. None: the next event begins none.
    pub fn next_step(&self) -> Option<Ticks>
        ensures { result ≡ time_of self.now.next }
    {
        match self.next? {
            Entry::Start { at }
            | Entry::Consumed { at, .. }
            | Entry::Prior { at, .. }
            | Entry::Discarded { at, .. }
            | Entry::Provided { at, .. }
            | Entry::FailedAt { at, .. } => Some(Ticks::new(at)),
            _ => None,
        }
    }

    /// How many entries were drawn after the next step.
    pub fn next_drawn(&self) -> u32
        ensures { result ≡ slice_index self.now.drawn 0 }
    {
        self.drawn.first().copied().unwrap_or(0)
    }

    /// The next step is made.
    pub fn pass_step(&mut self)
        ensures { self.new ≡ record self.old { drawn = drop 1 self.old.drawn } }
    {
        self.drawn = rest_of(self.drawn);
    }

    /// The next event is told, unless nothing is left but what closes the record. Says whether just that is left from
    /// now on.
    pub fn tell(&mut self) -> bool
        ensures told { IsTold self.old self.new }
        ensures closed { result ≡ (not (is_closing self.old.next) && is_closing self.new.next) }
    {
        if self.is_told() {
            return false;
        }
        self.pass_event();
        self.is_told()
    }

    /// The next event is told.
    fn pass_event(&mut self)
        ensures left { AreLeft self.old.later self.new }
        ensures same { self.new ≡ with_next self.new.next self.new.later self.old }
    {
        self.next = match self.events.next() {
            Some(told) => Some(told.entry),
            None => None,
        };
    }

    /// The version of the roster that the next look-up saw, or the next create or end saw or made.
    pub fn version(&self) -> Option<u32>
        ensures { result ≡ slice_get self.now.versions 0 }
    {
        self.versions.first().copied()
    }

    /// That event is told.
    pub fn pass_version(&mut self)
        ensures { self.new ≡ record self.old { versions = drop 1 self.old.versions } }
    {
        self.versions = rest_of(self.versions);
    }
}

/// All but the first.
fn rest_of(words: &[u32]) -> &[u32]
    ensures { result.now ≡ drop 1 words.now }
{
    match words.split_first() {
        Some((_, rest)) => rest,
        None => words,
    }
}
