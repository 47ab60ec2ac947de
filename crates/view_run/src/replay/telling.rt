//! What a step does outside, each thing in its turn.

ghost use Rattle.std.specs.Prelude.{◌≡◌};
ghost use Rattle.view_run.specs.Finder.{job_of};
ghost use Rattle.view_run.specs.Telling.{IsAccess, is_pid, next_kind};

use crate::replay::finder::Finder;
use port_model::{Pid, Ticks};
use run_order::Pending;
use run_tracks::Turn;
use sdl_system::{Dest, Target};
use std::alloc::AllocError;

/// What is to be told next of an instance, as far as others are concerned.
#[derive(Clone, Copy)]
enum Next {
    /// A signal goes to a target, which is looked up if no Pid is named.
    Send { by_pid: bool, target: Target },
    /// A timer expires at once.
    Expire,
    /// An instance of this number is made.
    Create(u32),
    /// A create makes none.
    Full,
    /// The instance ends.
    End,
    /// Nothing is done to others.
    Inside,
}

/// What an event does to others at a time.
fn next_kind(pending: &Pending, clock: Ticks) -> Next
    ensures { result ≡ next_kind pending.now clock }
{
    match pending {
        Pending::Send { to, target, .. } => Next::Send {
            by_pid: is_pid(*to),
            target: *target,
        },
        Pending::Arm(fuse) if fuse.due() <= clock => Next::Expire,
        Pending::Create { number, .. } => Next::Create(*number),
        Pending::Full(_) => Next::Full,
        Pending::End => Next::End,
        Pending::Arm(_) | Pending::Inside => Next::Inside,
    }
}

/// Whether a destination is named by a Pid.
fn is_pid(to: Dest) -> bool
    ensures { result ≡ is_pid to }
{
    match to {
        Dest::Pid(_) => true,
        Dest::Path | Dest::Process(_) => false,
    }
}

/// Whether something can be put now.
#[derive(Clone, Copy, PartialEq, Eq)]
enum Access {
    /// It is this sender's turn in the port of this instance.
    Turn(u32),
    /// It is lost, since the instance isn't there yet.
    Lost(u32),
    /// It goes into no port.
    Free,
    /// Another has to put before, or a look has to come before.
    Hindered,
}

impl<'r, 's> Finder<'r, 's> {
    /// Tells the next event of an instance that has begun a step. False: it is hindered.
    pub fn tell_next(&mut self, number: u32) -> Result<bool, AllocError>
        ensures { job_of self.new ≡ job_of self.old }
    {
        let clock = self.chronicle.replay().clock();
        let next = match self.chronicle.replay().next_of(number) {
            Some(pending) => next_kind(pending, clock),
            None => return Ok(false),
        };
        match next {
            Next::Send { by_pid, target } => self.tell_output(number, by_pid, target),
            Next::Expire => self.tell_put(number, Target::Instance(number)),
            Next::Create(made) => self.tell_create(number, made),
            Next::Full => self.tell_turn(number, Turn::Look),
            Next::End => self.tell_turn(number, Turn::Change),
            Next::Inside => self.tell_one(number),
        }
    }

    /// Tells the next event.
    fn tell_one(&mut self, number: u32) -> Result<bool, AllocError>
        ensures { job_of self.new ≡ job_of self.old }
    {
        if !self.chronicle.tell(self.alloc, number)? {
            return Ok(false);
        }
        self.tracks.pass_event(number);
        Ok(true)
    }

    /// Tells an output, which is looked up first.
    fn tell_output(&mut self, number: u32, by_pid: bool, target: Target) -> Result<bool, AllocError>
        ensures { job_of self.new ≡ job_of self.old }
    {
        if !self.look_up(number, by_pid)? {
            return Ok(false);
        }
        self.tell_put(number, target)
    }

    /// Looks up where the next output of an instance goes, unless that is done. False: it can't be looked up now.
    fn look_up(&mut self, number: u32, by_pid: bool) -> Result<bool, AllocError>
        ensures { job_of self.new ≡ job_of self.old }
    {
        if self.chronicle.replay().is_looked(number) {
            return Ok(true);
        }
        if by_pid {
            return Ok(self.chronicle.look_up(number));
        }
        if !self.tracks.is_turn(number, Turn::Look)? {
            return Ok(false);
        }
        if !self.chronicle.look_up(number) {
            return Ok(false);
        }
        self.pass_turn(number, Turn::Look)?;
        Ok(true)
    }

    /// Tells an event that puts something.
    fn tell_put(&mut self, number: u32, target: Target) -> Result<bool, AllocError>
        ensures { job_of self.new ≡ job_of self.old }
    {
        let access = self.access(number, target);
        if access == Access::Hindered {
            return Ok(false);
        }
        if !self.tell_one(number)? {
            return Ok(false);
        }
        self.pass_access(number, access)?;
        Ok(true)
    }

    /// What an instance had access for is put, or lost.
    fn pass_access(&mut self, number: u32, access: Access) -> Result<(), AllocError>
        ensures { job_of self.new ≡ job_of self.old }
    {
        match access {
            Access::Turn(receiver) => self.pass_put(receiver),
            Access::Lost(receiver) => self.pass_lost(number, receiver),
            Access::Free | Access::Hindered => Ok(()),
        }
    }

    /// Whether an instance can put into the port of a target now.
    fn access(&self, number: u32, target: Target) -> Access
        ensures { IsAccess self.now.chronicle.now self.now.tracks number target result }
    {
        let Target::Instance(receiver) = target else {
            return Access::Free;
        };
        let (Some(track), Some(port)) = (self.tracks.record(number), self.tracks.port(receiver))
        else {
            return Access::Free;
        };
        if self.chronicle.replay().is_there(receiver) {
            return if port.may_put(number) {
                Access::Turn(receiver)
            } else {
                Access::Hindered
            };
        }
        if track.loses_to(receiver) {
            Access::Lost(receiver)
        } else {
            Access::Hindered
        }
    }

    /// Something was put into the port of an instance: it may go on, and so may whose turn it is next.
    pub fn pass_put(&mut self, receiver: u32) -> Result<(), AllocError>
        ensures { job_of self.new ≡ job_of self.old }
    {
        self.tracks.pass_put(receiver);
        self.work.wake(receiver)?;
        self.wake_turn(receiver)
    }

    /// Whose turn it is in the port of an instance may go on.
    pub fn wake_turn(&mut self, receiver: u32) -> Result<(), AllocError>
        ensures { job_of self.new ≡ job_of self.old }
    {
        match self.tracks.turn(receiver) {
            Some(next) => self.work.wake(next),
            None => Ok(()),
        }
    }

    /// A signal was lost. Once all are that are to be lost, the instance may be made.
    fn pass_lost(&mut self, number: u32, receiver: u32) -> Result<(), AllocError>
        ensures { job_of self.new ≡ job_of self.old }
    {
        if self.tracks.pass_lost(number, receiver) {
            return self.wake_creator(receiver);
        }
        Ok(())
    }

    /// Whoever makes the instance of a number may go on.
    fn wake_creator(&mut self, made: u32) -> Result<(), AllocError>
        ensures { job_of self.new ≡ job_of self.old }
    {
        let Some(place) = made.checked_sub(1) else {
            return Ok(());
        };
        let parent = match self.report.records.get(place as usize) {
            Some(trace) => trace.parent(),
            None => Pid::Null,
        };
        match parent {
            Pid::Of(creator) => self.work.wake(creator),
            Pid::Null | Pid::Env => Ok(()),
        }
    }

    /// Tells a create that makes the instance of a number.
    fn tell_create(&mut self, number: u32, made: u32) -> Result<bool, AllocError>
        ensures { job_of self.new ≡ job_of self.old }
    {
        if let Some(port) = self.tracks.port(made)
            && port.loses()
        {
            return Ok(false);
        }
        if !self.tell_turn(number, Turn::Change)? {
            return Ok(false);
        }
        self.work.wake(made)?;
        self.wake_turn(made)?;
        Ok(true)
    }

    /// Tells an event that sees or changes who lives.
    fn tell_turn(&mut self, number: u32, turn: Turn) -> Result<bool, AllocError>
        ensures { job_of self.new ≡ job_of self.old }
    {
        if !self.tracks.is_turn(number, turn)? {
            return Ok(false);
        }
        if !self.tell_one(number)? {
            return Ok(false);
        }
        self.pass_turn(number, turn)?;
        Ok(true)
    }

    /// That event is told. Those who wait for the roster may go on then.
    fn pass_turn(&mut self, number: u32, turn: Turn) -> Result<(), AllocError>
        ensures { job_of self.new ≡ job_of self.old }
    {
        if self.tracks.pass_turn(number, turn) {
            return self.wake_roster();
        }
        Ok(())
    }

    /// Whoever waits for the roster may go on.
    fn wake_roster(&mut self) -> Result<(), AllocError>
        ensures { job_of self.new ≡ job_of self.old }
    {
        for _ in 0..u64::MAX {
            let Some(number) = self.tracks.waken() else {
                break;
            };
            self.work.wake(number)?;
        }
        Ok(())
    }
}
