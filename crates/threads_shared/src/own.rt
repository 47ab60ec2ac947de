//! What a thread of a run has for itself.

ghost use Rattle.std.specs.Prelude.{◌≡◌, [], IfOk, OnOk, Some, if◌then◌else◌, length, replicate, true};
ghost use Rattle.port_model.specs.KeptWords.{Notes};
ghost use Rattle.threads_ports.specs.Roster.{least_living};
ghost use Rattle.threads_shared.specs.Noting.{NotesLookUp};

use crate::addressees::Addressees;
use crate::lookout::Lookout;
use crate::shared::Shared;
use crate::tables::Tables;
use port_model::{Fuse, KeptWords, Ticks};
use sdl_system::Dest;
use sdl_timers::Reader;
use std::alloc::{AllocError, Global};
use std::collections::VecDeque;
use std::sync::Wait;
use threads_instance::Ticket;
use threads_ports::{NumberSeat, Roster, Run};

/// How many numbers a thread has room for in hand from the start: each number is in hand once at most.
const MOST_IN_HAND: usize = 1_000;

/// The state that a thread of the run `J` has for itself: its reader of the clock, its seat for numbers, the numbers in
/// its hand, the fuses of the step that it makes and to whom that has sent something, and what it has seen of who lives
/// and of the other workers. It can't be let go, since the tickets in its hand can't: its end is `end_with`.
pub struct Own<J: Run> {
    pub reader: Reader,
    pub seat: NumberSeat<J>,
    /// The tickets that this thread has, and that are in no queue yet: of those that its step has created or woken, and
    /// of its last job. A worker puts them into its local queue before it makes another step.
    pub hand: VecDeque<Ticket>,
    /// How many jobs this thread has done since it asked the injector for numbers. A job of several turns counts as
    /// so many.
    pub jobs: usize,
    /// What it has seen of the local queues of the workers.
    pub lookout: Lookout,
    /// The fuses of the step that is being made, which go into the wheel after it.
    pub fuses: Vec<Fuse>,
    /// To whom the step that is being made has sent something: they are woken after it.
    pub addressees: Addressees,
    /// For each process by its number, the least number of its living instances, as it was in a version of the roster.
    pub living: Vec<Option<u32>>,
    /// That version.
    pub version: u64,
    /// The versions of the roster that the step that is being made has seen and made, in the order of its events, where
    /// the course of the run is kept.
    pub versions: KeptWords,
    /// How many transitions were made that are not in the sum of all, and how many may be at most.
    pub moves: u64,
    pub part: u64,
}

impl<J: Run> Own<J> {
    /// The state with which a thread begins, in a system of so many processes: it has no number, has sent nothing,
    /// knows the roster's first version, in which nobody lives, looks at no other worker, and has made no transition.
    /// Refused for lack of memory.
    pub fn new(
        alloc: Global,
        reader: Reader,
        seat: NumberSeat<J>,
        processes: usize,
        part: u64,
        keeps_course: bool,
    ) -> Result<Self, AllocError>
        ensures passed { IfOk result (λ own. (own.reader ≡ reader) × (own.seat ≡ seat)) }
        ensures hand { IfOk result (λ own. (own.hand.items ≡ []) × (own.jobs ≡ 0)) }
        ensures lookout { IfOk result (λ own. (own.lookout.visits.items ≡ []) × (own.lookout.jobs ≡ 0)) }
        ensures step { IfOk result (λ own. (own.fuses.items ≡ []) × (own.addressees ≡ Addressees.Nobody)) }
        ensures seen { IfOk result (λ own. (own.living.items ≡ replicate processes None) × (own.version ≡ 0)) }
        ensures versions { IfOk result (λ own. own.versions ≡ (if keeps_course then Some [] else None)) }
        ensures moves { IfOk result (λ own. (own.moves ≡ 0) × (own.part ≡ part)) }
    {
        let mut living = Vec::with_capacity(alloc, processes)?;
        for _process in 0..processes {
            living.push(None)?;
        }
        let hand = VecDeque::with_capacity(alloc, MOST_IN_HAND)?;
        Ok(Own {
            reader,
            seat,
            hand,
            jobs: 0,
            lookout: Lookout::none(alloc),
            fuses: Vec::new(alloc),
            addressees: Addressees::Nobody,
            living,
            version: 0,
            versions: words_of(alloc, keeps_course),
            moves: 0,
            part,
        })
    }

    /// Looks who lives, where that was changed since the last look. All else stays.
    pub fn look<R: Wait>(&mut self, rt: &R, tables: &Tables)
        ensures own { (self.new.reader ≡ self.old.reader) × (self.new.seat ≡ self.old.seat) }
        ensures hand { (self.new.hand ≡ self.old.hand) × (self.new.jobs ≡ self.old.jobs) }
        ensures lookout { self.new.lookout ≡ self.old.lookout }
        ensures step { (self.new.fuses ≡ self.old.fuses) × (self.new.addressees ≡ self.old.addressees) }
        ensures versions { self.new.versions ≡ self.old.versions }
        ensures moves { (self.new.moves ≡ self.old.moves) × (self.new.part ≡ self.old.part) }
    {
        if tables.signs.version() == self.version {
            return;
        }
        // Before: another version was noted than the one that this thread knows. After: what is copied is the roster of
        // just the version that is kept, since both are read under its lock. What is changed later is noted later, and
        // looked at then.
        let roster = tables.roster.lock(rt);
        if self.living.len() != roster.living().len() {
            return;
        }
        self.copy(&roster);
    }

    /// Copies who lives by a roster, with its version. All else stays. That the roster is of as many processes as this
    /// thread knows is the caller's condition.
    fn copy(&mut self, roster: &Roster)
        requires { length self.old.living.items ≡ length (least_living roster.now.processes) }
        ensures version { self.new.version ≡ roster.now.version }
        ensures living { self.new.living.items ≡ least_living roster.now.processes }
        ensures rest { self.new ≡ record self.old { version = self.new.version; living = self.new.living } }
    {
        self.version = roster.version();
        self.living.as_mut_slice().copy_from_slice(roster.living());
    }

    /// Notes the version by which it has looked up to whom a signal goes. A Pid is its own target. All else depends on
    /// who lives.
    pub fn note_look_up(&mut self, to: Dest)
        ensures noted { NotesLookUp to self.old.version self.old.versions self.new.versions }
        ensures rest { self.new ≡ record self.old { versions = self.new.versions } }
    {
        match to {
            Dest::Path | Dest::Process(_) => {
                let version = self.version;
                self.note_version(version);
            }
            Dest::Pid(_) => {}
        }
    }

    /// Notes a version of the roster, which the step that is being made has seen or made, where the course of the run
    /// is kept. After 2^32 changes it is kept no more.
    pub fn note_version(&mut self, version: u64)
        ensures noted { Notes self.old.versions version self.new.versions }
        ensures rest { self.new ≡ record self.old { versions = self.new.versions } }
    {
        match u32::try_from(version) {
            Ok(word) => self.versions.note(word),
            Err(_) => self.versions = KeptWords::off(),
        }
    }

    /// Puts the fuses of a step into the wheel. For lack of memory one is lost, and the run is to end.
    pub fn arm<R: Wait>(&mut self, rt: &R, tables: &Tables) -> Result<(), AllocError> {
        if self.fuses.is_empty() {
            return Ok(());
        }
        // Before: the instance that set the timers is this thread's still, so the clock doesn't move. After: the fuses
        // are in the wheel, for whoever moves the clock next.
        let mut wheel = tables.wheel.lock(rt);
        for _ in 0..self.fuses.len() {
            let Some(fuse) = self.fuses.pop() else {
                break;
            };
            if wheel.arm(fuse).is_err() {
                return Err(AllocError);
            }
        }
        Ok(())
    }

    /// Lets it go. What this thread has in hand goes into the injector.
    pub fn end_with<R: Wait + Copy>(self, shared: &Shared<'_, '_, '_, J, R>) {
        let Own {
            reader: _,
            seat: _,
            hand,
            jobs: _,
            lookout: _,
            fuses: _,
            addressees: _,
            living: _,
            version: _,
            versions: _,
            moves: _,
            part: _,
        } = self;
        let mut hand = hand;
        shared.queue_all(&mut hand);
        hand.destroy_empty();
    }
}

/// The words that a thread notes, where the course of the run is kept: none so far.
fn words_of(alloc: Global, keeps_course: bool) -> KeptWords
    ensures { result ≡ (if keeps_course then Some [] else None) }
{
    if keeps_course {
        KeptWords::new(alloc)
    } else {
        KeptWords::off()
    }
}
