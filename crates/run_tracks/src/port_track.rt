//! How far the history of a port is told.

ghost use Rattle.std.specs.Prelude.{◌≡◌, ◌&&◌, [], IfOk, None, OnErr, OnOk, nat_lt, not, slice_index};
ghost use Rattle.run_tracks.specs.Looks.{found_in, looks_in};
ghost use Rattle.run_tracks.specs.PortTrack.{after_put, after_step, is_hindered, is_look, is_turn, turn_in, with_known, with_loss, without_loss};

use crate::by_number::{put_at, value_at};
use crate::looks::{Look, looks_of};
use crate::words::Words;
use run_record::Record;
use sdl_system::Process;
use std::alloc::{AllocError, Global};
use std::marker::Model;

/// The puts into a port that aren't told, and the looks of its owner that must find no more of them.
#[derive(Drop)]
pub struct PortTrack<'r> {
    /// The number of the sender of each put that isn't told.
    puts: &'r [u32],
    /// How many puts are told.
    told: u32,
    /// By the number that a sender has here, the number of its instance, 0 for the environment.
    senders: Vec<u32>,
    /// The looks of its owner, in their order.
    looks: Vec<Look>,
    /// So many of these looks are made.
    looked: usize,
    /// So many steps are made.
    steps: u32,
    /// How many signals of instances are to be lost still, before this one is there.
    lost: u32,
}

impl<'r> Model for PortTrack<'r> {
    ghost use Rattle.run_tracks.specs.PortTrack.{PortState};

    ghost Value = { PortState };

    ghost view = { λ p. record {
      puts = p.puts.now;
      told = p.told;
      senders = p.senders.items;
      looks = p.looks.items;
      looked = p.looked;
      steps = p.steps;
      lost = p.lost;
    } };
}

/// No port has a sender of a greater number: there is one for each instance at most, and one of the environment.
const MOST_SENDERS: u32 = 1_001;

impl<'r> PortTrack<'r> {
    /// The port of an instance, before anything is put. `looked` is what `looks_of` asks for.
    pub fn new(
        alloc: Global,
        process: &Process,
        trace: &Record,
        looked: bool,
        words: Words<'r>,
    ) -> Result<Self, AllocError>
        ensures { IfOk result (λ port. port ≡ record {
          puts = words.entry.puts.now;
          told = 0;
          senders = [];
          looks = looks_in 0 (found_in process.now looked None trace.now.events) words.entry.drawn.now;
          looked = 0;
          steps = 0;
          lost = 0;
        }) }
    {
        Ok(PortTrack {
            puts: words.puts,
            told: 0,
            senders: Vec::new(alloc),
            looks: looks_of(alloc, process, trace, looked, words.drawn)?,
            looked: 0,
            steps: 0,
            lost: 0,
        })
    }

    /// A sender has this number here. For lack of memory nothing changes.
    pub fn add_sender(&mut self, number: u32, instance: u32) -> Result<(), AllocError>
        ensures ok { OnOk result (self.new ≡ with_known number instance self.old) }
        ensures err { OnErr result (self.new ≡ self.old) }
    {
        if number > MOST_SENDERS {
            return Ok(());
        }
        put_at(&mut self.senders, number, instance)
    }

    /// The senders of the puts that aren't told, one for each put.
    pub fn puts(&self) -> &'r [u32]
        ensures { result.now ≡ self.now.puts }
    {
        self.puts
    }

    /// The instance that has this number here, 0 for the environment.
    pub fn instance_of(&self, number: u32) -> u32
        ensures { result ≡ slice_index self.now.senders number }
    {
        value_at(&self.senders, number)
    }

    /// The instance whose turn it is to put, 0 for the environment. None: nothing more is put.
    pub fn turn(&self) -> Option<u32>
        ensures { result ≡ turn_in self.now }
    {
        match self.puts.first() {
            Some(number) => Some(self.instance_of(*number)),
            None => None,
        }
    }

    /// How many puts are told.
    pub fn told(&self) -> u32
        ensures { result ≡ self.now.told }
    {
        self.told
    }

    /// Whether the instance of this number may put now: no look comes before, and it is its turn.
    pub fn may_put(&self, number: u32) -> bool
        ensures { result ≡ (not (is_hindered self.now) && is_turn number self.now) }
    {
        !self.is_hindered() && self.is_turn(number)
    }

    /// Whether the next put is one of the instance of this number.
    fn is_turn(&self, number: u32) -> bool
        ensures { result ≡ is_turn number self.now }
    {
        match self.turn() {
            Some(next) => next == number,
            None => false,
        }
    }

    /// Whether a look has to come before the next put.
    fn is_hindered(&self) -> bool
        ensures { result ≡ is_hindered self.now }
    {
        match self.looks.get(self.looked) {
            Some(look) => look.drawn <= self.told,
            None => false,
        }
    }

    /// A put is told.
    pub fn pass_put(&mut self)
        ensures { self.new ≡ after_put self.old }
    {
        if let Some((_, rest)) = self.puts.split_first() {
            self.puts = rest;
        }
        self.told = self.told.saturating_add(1);
    }

    /// A step is made. Says whether it was such a look: then others may put.
    pub fn pass_step(&mut self) -> bool
        ensures look { result ≡ is_look self.old }
        ensures after { self.new ≡ after_step self.old }
    {
        let is_look = match self.looks.get(self.looked) {
            Some(look) => look.step == self.steps,
            None => false,
        };
        if is_look {
            self.looked = self.looked.saturating_add(1);
        }
        self.steps = self.steps.saturating_add(1);
        is_look
    }

    /// One more signal is to be lost.
    pub fn add_lost(&mut self)
        ensures { self.new ≡ with_loss self.old }
    {
        self.lost = self.lost.saturating_add(1);
    }

    /// One of these signals is lost, or isn't to be lost.
    pub fn pass_lost(&mut self)
        ensures { self.new ≡ without_loss self.old }
    {
        self.lost = self.lost.saturating_sub(1);
    }

    /// Whether signals are to be lost still, before this one is there.
    pub fn loses(&self) -> bool
        ensures { result ≡ nat_lt 0 self.now.lost }
    {
        self.lost > 0
    }
}
