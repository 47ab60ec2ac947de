//! How the order is found: a record goes on until it is hindered.

ghost use Rattle.std.specs.Prelude.{◌≡◌, ◌↔◌, IfOk, IsTrue, Some, false, true};
ghost use Rattle.view_run.specs.Finder.{IsEndOf, IsStepAt, first_left, is_told, job_of, job_with};
ghost use Rattle.run_tracks.specs.Tracks.{at_number};

use crate::replay::looked::looked_before_failures;
use port_model::{Course, Ticks};
use run_order::{Answers, Chronicle, Ending, Move};
use run_record::Report;
use run_tracks::{Tracks, WaitList, WorkList};
use sdl_script::Script;
use sdl_system::System;
use std::alloc::{AllocError, Global};

/// A run of which a part is told.
#[derive(Drop)]
pub struct Finder<'r, 's> {
    pub alloc: Global,
    pub report: &'r Report,
    pub chronicle: Chronicle<'s>,
    pub answers: Answers<'r>,
    pub tracks: Tracks<'r>,
    pub work: WorkList,
    /// Whose next step waits for the clock.
    pub timed: WaitList,
    /// Whether the environment has done something: all that is due by the clock's time. Before that, at time 0, a step
    /// may wait for what it does.
    pub has_heard: bool,
}

impl<'r, 's> Finder<'r, 's> {
    /// A run of which nothing is told.
    pub fn new(
        alloc: Global,
        system: &'s System,
        script: &'s Script,
        report: &'r Report,
        course: &'r Course,
    ) -> Result<Self, AllocError>
        ensures { IfOk result (λ finder. job_of finder ≡ job_with system.now script.now.lines.items report.now) }
    {
        let numbers = u32::try_from(report.records.len()).unwrap_or(u32::MAX);
        let looked = looked_before_failures(alloc, system, &report.records)?;
        Ok(Finder {
            alloc,
            report,
            chronicle: Chronicle::new(alloc, system, script)?,
            answers: Answers::new(alloc, &report.records, system.processes().len())?,
            tracks: Tracks::new(alloc, system, report, &looked, course)?,
            work: WorkList::new(alloc, numbers)?,
            timed: WaitList::new(alloc),
            has_heard: false,
        })
    }

    /// Tells what can be told.
    pub fn run(&mut self) -> Result<(), AllocError>
        ensures { job_of self.new ≡ job_of self.old }
    {
        for _ in 0..u64::MAX {
            if !self.go_on()? {
                break;
            }
        }
        Ok(())
    }

    /// A record goes on, or the clock moves where none does. False: neither.
    fn go_on(&mut self) -> Result<bool, AllocError>
        ensures { job_of self.new ≡ job_of self.old }
    {
        match self.work.next() {
            Some(number) => {
                self.tell(number)?;
                Ok(true)
            }
            None => self.move_clock(),
        }
    }

    /// A record tells its events until it is hindered, or there are none any more.
    fn tell(&mut self, number: u32) -> Result<(), AllocError>
        ensures { job_of self.new ≡ job_of self.old }
    {
        for _ in 0..u64::MAX {
            if !self.advance(number)? {
                break;
            }
        }
        Ok(())
    }

    /// The next event of a record. False: it is hindered, or there is none.
    fn advance(&mut self, number: u32) -> Result<bool, AllocError>
        ensures { job_of self.new ≡ job_of self.old }
    {
        if !self.chronicle.replay().is_there(number) {
            return Ok(false);
        }
        if self.chronicle.replay().next_of(number).is_some() {
            return self.tell_next(number);
        }
        if !self.may_step(number)? {
            return Ok(false);
        }
        self.make_step(number)
    }

    /// Whether the next event of a record begins a step that can be made now. If not, it waits for its time, or until
    /// more is put into the port of the instance.
    fn may_step(&mut self, number: u32) -> Result<bool, AllocError>
        ensures { job_of self.new ≡ job_of self.old }
    {
        let (Some(track), Some(port)) = (self.tracks.record(number), self.tracks.port(number))
        else {
            return Ok(false);
        };
        let Some(at) = track.next_step() else {
            return Ok(false);
        };
        let now = self.chronicle.replay().clock();
        if at > now {
            self.timed.add(at.get(), number)?;
            return Ok(false);
        }
        Ok(at == now && track.next_drawn() <= port.told())
    }

    /// Makes the next step of a record. False: the instance doesn't make it.
    fn make_step(&mut self, number: u32) -> Result<bool, AllocError>
        ensures { job_of self.new ≡ job_of self.old }
    {
        let later = match self.tracks.record(number) {
            Some(track) => track.later(),
            None => return Ok(false),
        };
        self.answers.ask(Some(later));
        let made = self
            .chronicle
            .make_step(self.alloc, number, &mut self.answers)?;
        self.pass_made(number, made)
    }

    /// The next step of a record is made, if something came of it. What fails the instance is told as it ends.
    fn pass_made(&mut self, number: u32, made: Move) -> Result<bool, AllocError>
        ensures { job_of self.new ≡ job_of self.old }
    {
        match made {
            Move::Began => {
                self.tracks.pass_event(number);
                self.pass_step(number)?;
                Ok(true)
            }
            Move::Failing => {
                self.pass_step(number)?;
                Ok(true)
            }
            Move::Nothing | Move::Amiss => Ok(false),
        }
    }

    /// The next step of a record is made. Where it was a look, others may put into its port now.
    fn pass_step(&mut self, number: u32) -> Result<(), AllocError>
        ensures { job_of self.new ≡ job_of self.old }
    {
        if self.tracks.pass_step(number) {
            return self.wake_turn(number);
        }
        Ok(())
    }

    /// The clock moves to the next time, where all are at rest, and what is due then is done. False: somebody isn't at
    /// rest, and nothing lets it go on; or nothing is left to be told.
    fn move_clock(&mut self) -> Result<bool, AllocError>
        ensures { job_of self.new ≡ job_of self.old }
    {
        if !self.report.whole && self.tracks.is_all_told() {
            return Ok(false);
        }
        // Who is asked whether it rests makes a step if it doesn't, and in a run that was cut it needn't: that step is
        // none of its record. So nobody is asked before all is told of this time. Then the clock moved in the run, and all
        // rested.
        if self.is_somebody_behind() || !self.are_at_rest()? {
            return Ok(false);
        }
        if !self.chronicle.tick() {
            return Ok(false);
        }
        self.has_heard = true;
        self.do_environment()?;
        self.wake_timed()?;
        Ok(true)
    }

    /// Whoever waits for this time goes on.
    fn wake_timed(&mut self) -> Result<(), AllocError>
        ensures { job_of self.new ≡ job_of self.old }
    {
        let now = self.chronicle.replay().clock();
        for _ in 0..u64::MAX {
            let Some(number) = self.timed.pop(now.get()) else {
                break;
            };
            self.work.wake(number)?;
        }
        Ok(())
    }

    /// Whether more is told of an instance at this time.
    fn is_somebody_behind(&self) -> bool {
        let mut behind = 0;
        for _ in 0..u64::MAX {
            let Some(number) = self.chronicle.replay().next_noted(behind) else {
                return false;
            };
            if self.chronicle.replay().next_of(number).is_some() || self.is_behind(number) {
                return true;
            }
            behind = number;
        }
        false
    }

    /// Whether all are at rest, where nothing more is told at this time.
    fn are_at_rest(&mut self) -> Result<bool, AllocError>
        ensures { job_of self.new ≡ job_of self.old }
    {
        let mut behind = 0;
        for _ in 0..u64::MAX {
            let Some(number) = self.chronicle.replay().next_noted(behind) else {
                return Ok(true);
            };
            if !self.is_at_rest(number)? {
                return Ok(false);
            }
            behind = number;
        }
        Ok(false)
    }

    /// Whether an instance is at rest. If not, it has made a step.
    fn is_at_rest(&mut self, number: u32) -> Result<bool, AllocError>
        ensures { job_of self.new ≡ job_of self.old }
    {
        self.answers.ask(None);
        let made = self
            .chronicle
            .make_step(self.alloc, number, &mut self.answers)?;
        Ok(made == Move::Nothing)
    }

    /// Whether a record has a step at this time still, for which the environment has done all that it does.
    fn is_behind(&self, number: u32) -> bool
        ensures heard { self.now.has_heard ≡ true → (IsTrue result
            ↔ IsStepAt self.now.chronicle.now.clock (at_number self.now.tracks.records number)) }
        ensures unheard { self.now.has_heard ≡ false → result ≡ false }
    {
        if !self.has_heard {
            return false;
        }
        self.has_step_now(number)
    }

    /// Whether a record has a step at this time still.
    fn has_step_now(&self, number: u32) -> bool
        ensures { IsTrue result ↔ IsStepAt self.now.chronicle.now.clock (at_number self.now.tracks.records number) }
    {
        let now = self.chronicle.replay().clock();
        match self.tracks.record(number) {
            Some(track) => is_at(track.next_step(), now),
            None => false,
        }
    }

    /// The first record of which events are left, by its number; 0 where none is.
    pub fn first_left(&self) -> u32
        ensures { result ≡ first_left self.now.tracks.records self.now.report.now.records.items }
    {
        for trace in &self.report.records {
            let number = trace.pid();
            if !self.is_told(number) {
                return number;
            }
        }
        0
    }

    /// Whether there is a record of this number, and all of it is told.
    fn is_told(&self, number: u32) -> bool
        ensures { result ≡ is_told (at_number self.now.tracks.records number) }
    {
        match self.tracks.record(number) {
            Some(track) => track.is_told(),
            None => false,
        }
    }

    /// Whose events were told, and whether these are all.
    pub fn finish(self) -> Result<Ending, AllocError>
        ensures { IfOk result (IsEndOf (job_of self.entry)) }
    {
        let Finder {
            alloc,
            report,
            chronicle,
            ..
        } = self;
        chronicle.finish(alloc, report)
    }
}

/// Whether there is a time, and it is this one.
fn is_at(time: Option<Ticks>, now: Ticks) -> bool
    ensures { IsTrue result ↔ (time ≡ Some now) }
{
    match time {
        Some(time) => time == now,
        None => false,
    }
}
