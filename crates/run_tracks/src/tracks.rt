//! All records and ports of a run, with their courses.

ghost use Rattle.std.specs.Prelude.{◌≡◌, ◌↔◌, ◌+◌, ◌-◌, ◌<◌, ◌^◌, ◌&&◌, All, IfNone, IfOk, IfSome, IsTrue, MatchOption, OnErr, count_by, if◌then◌else◌, min, option_and_then, option_copied};
ghost use Rattle.run_tracks.specs.PortTrack.{after_put, turn_in};
ghost use Rattle.run_tracks.specs.RosterTurns.{IsOpenAfter};
ghost use Rattle.run_tracks.specs.Tracks.{IsToldAt, IsTurnOf, at_number, changed_at, is_first, is_last, is_look_at, loses, not_losing, stepped, turned, waiting_for, with_waits, without};
ghost use Rattle.run_tracks.specs.Waiting.{IsTakenBy};

use crate::port_track::PortTrack;
use crate::roster_turns::{RosterTurns, Turn, turn_of};
use crate::track::Track;
use crate::words::{Words, words_of};
use port_model::{Course, Pid};
use run_record::{Entry, Record, Report};
use sdl_system::{System, Target};
use std::alloc::{AllocError, Global};
use std::marker::Model;

/// The records and the ports of all instances, by ascending number, the first one with the number 1.
#[derive(Drop)]
pub struct Tracks<'r> {
    records: Vec<Track<'r>>,
    ports: Vec<PortTrack<'r>>,
    roster: RosterTurns,
    /// Of so many records events are left.
    left: usize,
}

impl<'r> Model for Tracks<'r> {
    ghost use Rattle.run_tracks.specs.Tracks.{TracksState};

    ghost Value = { TracksState };

    ghost view = { λ t. record {
      records = t.records.items;
      ports = t.ports.items;
      roster = t.roster;
      left = t.left;
    } };
}

impl<'r> Tracks<'r> {
    /// A run of which nothing is told. Where a record has no process or no words, it and those behind it have no track. Of
    /// each record `looked` says whether the condition that fails it was evaluated behind a look at the port.
    pub fn new(
        alloc: Global,
        system: &System,
        report: &'r Report,
        looked: &[bool],
        course: &'r Course,
    ) -> Result<Self, AllocError> {
        let records = report.records.as_slice();
        let mut tracks = Tracks {
            records: Vec::new(alloc),
            ports: Vec::new(alloc),
            roster: RosterTurns::new(alloc, count_first(records)),
            left: 0,
        };
        for (place, trace) in records.iter().enumerate() {
            let Some(words) = words_of(course, place) else {
                break;
            };
            let looked = looked.get(place).copied().unwrap_or(true);
            if !tracks.add(alloc, system, trace, looked, words)? {
                break;
            }
        }
        tracks.add_all_senders(records, course)?;
        tracks.add_all_lost(records)?;
        Ok(tracks)
    }

    /// The record and the port of the next number. False: there is no such process.
    fn add(
        &mut self,
        alloc: Global,
        system: &System,
        trace: &'r Record,
        looked: bool,
        words: Words<'r>,
    ) -> Result<bool, AllocError> {
        let Some(process) = system.process(trace.process()) else {
            return Ok(false);
        };
        let track = Track::new(alloc, trace, words);
        if !track.is_told() {
            self.left = self.left.saturating_add(1);
        }
        self.records.push(track)?;
        let port = PortTrack::new(alloc, process, trace, looked, words)?;
        self.ports.push(port)?;
        self.add_looks(trace, words.versions)?;
        Ok(true)
    }

    /// The look-ups of a record, which saw or made these versions of the roster.
    fn add_looks(&mut self, trace: &Record, versions: &[u32]) -> Result<(), AllocError> {
        let mut versions = versions;
        for told in trace.reader() {
            let Some(turn) = turn_of(told.entry) else {
                continue;
            };
            let Some((version, rest)) = versions.split_first() else {
                return Ok(());
            };
            versions = rest;
            if turn == Turn::Look {
                self.roster.add_look(*version)?;
            }
        }
        Ok(())
    }

    /// Who puts into which port, under which number.
    fn add_all_senders(&mut self, records: &[Record], course: &Course) -> Result<(), AllocError> {
        for (place, trace) in records.iter().enumerate() {
            let Some(words) = words_of(course, place) else {
                return Ok(());
            };
            self.add_senders(trace.pid(), words)?;
        }
        Ok(())
    }

    /// Into which ports the instance of this number puts, by these words.
    fn add_senders(&mut self, instance: u32, words: Words<'_>) -> Result<(), AllocError> {
        for sender in words.senders {
            if let Some(place) = place_of(sender.port)
                && let Some(port) = self.ports.get_mut(place)
            {
                port.add_sender(sender.number, instance)?;
            }
        }
        Ok(())
    }

    /// Of what was sent to an instance the first signals are lost, as many as were sent more than were put. What an
    /// instance sends to itself is never lost.
    fn add_all_lost(&mut self, records: &[Record]) -> Result<(), AllocError> {
        for trace in records {
            self.add_sent(trace)?;
        }
        for trace in records {
            self.take_put(trace.pid());
        }
        Ok(())
    }

    /// All that an instance sent to others may be lost.
    fn add_sent(&mut self, trace: &Record) -> Result<(), AllocError> {
        let own = trace.pid();
        for told in trace.reader() {
            if let Entry::Output {
                target: Target::Instance(number),
                ..
            } = told.entry
                && number != own
            {
                self.add_lost(own, number)?;
            }
        }
        Ok(())
    }

    /// A signal of a sender to a receiver may be lost.
    fn add_lost(&mut self, sender: u32, receiver: u32) -> Result<(), AllocError> {
        let (Some(from), Some(into)) = (place_of(sender), place_of(receiver)) else {
            return Ok(());
        };
        let Some(port) = self.ports.get_mut(into) else {
            return Ok(());
        };
        port.add_lost();
        match self.records.get_mut(from) {
            Some(track) => track.add_lost(receiver),
            None => Ok(()),
        }
    }

    /// What was put into the port of a number isn't lost.
    fn take_put(&mut self, receiver: u32) {
        let puts = match self.port(receiver) {
            Some(port) => port.puts(),
            None => return,
        };
        for number in puts {
            let sender = match self.port(receiver) {
                Some(port) => port.instance_of(*number),
                None => 0,
            };
            self.pass_lost(sender, receiver);
        }
    }

    /// One of the signals of a sender to a receiver isn't to be lost any more. Says whether it was, and was the last
    /// one of all to this receiver.
    pub fn pass_lost(&mut self, sender: u32, receiver: u32) -> bool
        ensures after { self.new ≡ without sender receiver self.old }
        ensures last { result ≡ (loses sender receiver self.old && is_last (at_number self.new.ports receiver)) }
    {
        if !self.take_lost(sender, receiver) {
            return false;
        }
        let Some(place) = place_of(receiver) else {
            return false;
        };
        let Some(port) = self.ports.get_mut(place) else {
            return false;
        };
        port.pass_lost();
        !port.loses()
    }

    /// Whether a signal of a sender to a receiver is to be lost. It is to be lost no more then.
    fn take_lost(&mut self, sender: u32, receiver: u32) -> bool
        ensures lost { result ≡ loses sender receiver self.old }
        ensures after { self.new ≡ record self.old {
          records = changed_at (not_losing receiver) self.old.records sender;
        } }
    {
        let Some(place) = place_of(sender) else {
            return false;
        };
        match self.records.get_mut(place) {
            Some(track) => track.take_lost(receiver),
            None => false,
        }
    }

    /// The record of a number.
    pub fn record(&self, number: u32) -> Option<&Track<'r>>
        ensures { option_copied result ≡ at_number self.now.records number }
    {
        self.records.get(place_of(number)?)
    }

    /// The port of a number.
    pub fn port(&self, number: u32) -> Option<&PortTrack<'r>>
        ensures { option_copied result ≡ at_number self.now.ports number }
    {
        self.ports.get(place_of(number)?)
    }

    /// The next event of a record is told.
    pub fn pass_event(&mut self, number: u32)
        ensures { IsToldAt self.old number self.new }
    {
        let Some(place) = place_of(number) else {
            return;
        };
        let Some(track) = self.records.get_mut(place) else {
            return;
        };
        if track.tell() {
            self.left = self.left.saturating_sub(1);
        }
    }

    /// The next step of a record is made. Says whether others may put into its port now.
    pub fn pass_step(&mut self, number: u32) -> bool
        ensures after { self.new ≡ stepped number self.old }
        ensures look { result ≡ is_look_at (at_number self.old.ports number) }
    {
        let Some(place) = place_of(number) else {
            return false;
        };
        if let Some(track) = self.records.get_mut(place) {
            track.pass_step();
        }
        match self.ports.get_mut(place) {
            Some(port) => port.pass_step(),
            None => false,
        }
    }

    /// A put into the port of a number is told.
    pub fn pass_put(&mut self, number: u32)
        ensures { self.new ≡ record self.old { ports = changed_at after_put self.old.ports number } }
    {
        if let Some(place) = place_of(number)
            && let Some(port) = self.ports.get_mut(place)
        {
            port.pass_put();
        }
    }

    /// The instance whose turn it is to put into the port of a number, 0 for the environment. None: nothing more is
    /// put.
    pub fn turn(&self, number: u32) -> Option<u32>
        ensures { result ≡ option_and_then turn_in (at_number self.now.ports number) }
    {
        self.port(number)?.turn()
    }

    /// Whether the next event of a record may see or change who lives. If not, it waits.
    pub fn is_turn(&mut self, number: u32, turn: Turn) -> Result<bool, AllocError>
        ensures turn { IfOk result (λ may. IsTrue may ↔ IsTurnOf self.old number turn) }
        ensures waits { IfOk result (λ may. self.new ≡ (if may then self.old else waiting_for number turn self.old)) }
        ensures err { OnErr result (self.new ≡ self.old) }
    {
        let version = match self.record(number) {
            Some(track) => track.version(),
            None => None,
        };
        let Some(version) = version else {
            return Ok(false);
        };
        if self.roster.may_tell(turn, version) {
            return Ok(true);
        }
        self.roster.wait(turn, version, number)?;
        Ok(false)
    }

    /// The next event of a record that sees or changes who lives is told. Says whether those who wait may go on.
    pub fn pass_turn(&mut self, number: u32, turn: Turn) -> bool
        ensures after { self.new ≡ turned number turn self.old }
        ensures open { IsTrue result ↔ IsOpenAfter turn self.new.roster }
    {
        if let Some(place) = place_of(number)
            && let Some(track) = self.records.get_mut(place)
        {
            track.pass_version();
        }
        self.roster.pass(turn)
    }

    /// Takes out one of those who wait for no more changes of the roster than are told.
    pub fn waken(&mut self) -> Option<u32>
        ensures next { MatchOption result (All (λ w. self.old.roster.told < w.until) self.old.roster.waiting)
            (IsTakenBy self.old.roster.told self.old.roster.waiting self.new.roster.waiting) }
        ensures none { IfNone result (self.new ≡ self.old) }
        ensures same { self.new ≡ with_waits self.new.roster.waiting self.old }
    {
        self.roster.waken()
    }

    /// Whether all is told, except for the events that close the records.
    pub fn is_all_told(&self) -> bool
        ensures { IsTrue result ↔ (self.now.left ≡ 0) }
    {
        self.left == 0
    }
}

/// The place of the instance of a number.
fn place_of(number: u32) -> Option<usize>
    ensures some { IfSome result (λ place. number ≡ place + 1) }
    ensures none { IfNone result (number ≡ 0) }
{
    let place = number.checked_sub(1)?;
    Some(place as usize)
}

/// How many of these instances have no creator: with them the system begins.
fn count_first(records: &[Record]) -> u32
    ensures { result ≡ min (count_by is_first records.now) (2 ^ 32 - 1) }
{
    let mut count = 0u32;
    for trace in records {
        if trace.parent() == Pid::Null {
            count = count.saturating_add(1);
        }
    }
    count
}
