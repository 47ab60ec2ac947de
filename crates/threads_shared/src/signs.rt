//! The words that all threads look at.

ghost use Rattle.std.specs.Prelude.{◌≡◌, ◌≤◌, true};
ghost use Rattle.threads_shared.specs.Signs.{limit_of, part_of, workers_of};

use crossbeam_utils::CachePadded;
use std::hint::spin_loop;
use std::sync::atomic::{AtomicBool, AtomicU64, AtomicUsize, Ordering};
use threads_instance::Injector;
use threads_ports::Roster;

/// How many transitions a thread makes at most before it adds them to the sum of all.
const MOST_MOVES: u64 = 64;

/// How often a worker without a number looks for one before it sleeps.
const MOST_LOOKS: u32 = 5_000;

/// The words of a run that all threads look at, without a lock. No contract says what is in one: another thread may
/// change it at any time. Each is on cache lines of its own, so a look at one costs nothing while another changes.
#[derive(Drop)]
pub struct Signs {
    version: CachePadded<AtomicU64>,
    moves: CachePadded<AtomicU64>,
    sleepers: CachePadded<AtomicUsize>,
    seekers: CachePadded<AtomicUsize>,
    queued: CachePadded<AtomicUsize>,
    closed: CachePadded<AtomicBool>,
    failed: CachePadded<AtomicBool>,
    limit: u64,
    workers: usize,
}

impl Signs {
    /// The words of a run that begins, with this limit of transitions and so many workers.
    pub fn new(limit: u64, workers: usize) -> Self
        ensures limit { limit_of result ≡ limit }
        ensures workers { workers_of result ≡ workers }
    {
        Signs {
            version: CachePadded::new(AtomicU64::new(0)),
            moves: CachePadded::new(AtomicU64::new(0)),
            sleepers: CachePadded::new(AtomicUsize::new(0)),
            seekers: CachePadded::new(AtomicUsize::new(0)),
            queued: CachePadded::new(AtomicUsize::new(0)),
            closed: CachePadded::new(AtomicBool::new(false)),
            failed: CachePadded::new(AtomicBool::new(false)),
            limit,
            workers,
        }
    }

    /// How many transitions a thread makes at most before it adds them to the sum of all, where there are so many
    /// workers: so few that the run goes past the limit by a quarter of it at most, and by 64 a worker; one at least.
    pub fn part(&self, workers: usize) -> u64
        ensures { result ≡ part_of (limit_of self.now) workers }
    {
        let parts = (workers as u64).saturating_mul(4);
        match self.limit.checked_div(parts) {
            Some(part) => part.clamp(1, MOST_MOVES),
            None => 1,
        }
    }

    /// The roster's version, as it was noted last. A look: who changes the roster now has its lock still.
    pub fn version(&self) -> u64 {
        self.version.load(Ordering::SeqCst)
    }

    /// Notes the roster's version. The caller has the lock of the roster.
    pub fn note_version(&self, roster: &Roster) {
        // Before: the word has the version with which the lock of the roster was left last, or the one that was
        // announced since. After: that with which it is left next. So who sees the version that it knows already knows
        // the roster as it was at that look, and who sees another one looks at it under its lock.
        self.version.store(roster.version(), Ordering::SeqCst);
    }

    /// Notes the version that the roster has after its next change. The caller has the lock of the roster, and changes
    /// it before it leaves the lock, or notes its version again.
    pub fn announce_version(&self, roster: &Roster) {
        // Before: the word has the version with which the lock of the roster was left last, and nobody has seen what
        // the caller is about to show. After: it has the next one. So who sees what is shown after this, and looks up
        // then, sees another version than it knows, and looks at the roster under its lock, which it has once the
        // caller has left it.
        self.version
            .store(roster.version().saturating_add(1), Ordering::SeqCst);
    }

    /// Adds transitions that were made. True: they are as many as the limit.
    pub fn add_moves(&self, moves: u64) -> bool
        ensures { limit_of self.now ≤ moves → result ≡ true }
    {
        // Before: the sum of what was added. After: with these. The caller adds each transition once, after it is made,
        // so the sum is never more than the transitions made.
        let before = self.moves.fetch_add(moves, Ordering::SeqCst);
        before.saturating_add(moves) >= self.limit
    }

    /// How many transitions were added to the sum of all. Once all threads are joined, these are all that were made:
    /// each adds what it has before it ends.
    pub fn moves(&self) -> u64 {
        self.moves.load(Ordering::SeqCst)
    }

    /// Notes how many workers sleep, and how many numbers are in the injector's queue. The caller has the lock of the
    /// injector.
    pub fn note(&self, injector: &Injector) {
        // Before: the words are as the injector was when its lock was left last. After: as it is. Who looks without the
        // lock may see the old ones: both are hints, and the injector itself is asked before a worker sleeps.
        self.sleepers.store(injector.sleepers(), Ordering::SeqCst);
        self.queued.store(injector.queued(), Ordering::SeqCst);
    }

    /// Whether a worker has no number: it sleeps, or looks for one. A look, which may be late: what is shared by it is
    /// in the injector, where the next worker without a number finds it.
    pub fn has_idle(&self) -> bool {
        self.sleepers.load(Ordering::SeqCst) > 0 || self.seekers.load(Ordering::SeqCst) > 0
    }

    /// Looks for a while whether a number is queued, on behalf of a worker that has none. Others share with it
    /// meanwhile. Whatever it sees, the worker asks the injector then, which looks under its lock.
    pub fn seek(&self) {
        // Before: the worker has no number, and isn't counted among those that look. After: it is, so who has two
        // numbers or more gives some to the injector.
        self.seekers.fetch_add(1, Ordering::SeqCst);
        for _ in 0..MOST_LOOKS {
            if self.has_queued() || self.is_closed() || self.is_still() {
                break;
            }
            spin_loop();
        }
        // Before: the worker is counted among those that look. After: it isn't, and it still has no number. What was
        // given to the injector for it is there, unless another worker has it by now. It asks for it next, and isn't
        // noted as asleep before that: so no wake-up is lost, whatever it saw.
        self.seekers.fetch_sub(1, Ordering::SeqCst);
    }

    /// Whether numbers are in the injector's queue. A look, which may be late.
    pub fn has_queued(&self) -> bool {
        self.queued.load(Ordering::SeqCst) > 0
    }

    /// Whether no worker has a number: each sleeps or looks for one, so none comes before the clock moves. A look,
    /// which may be late, or early if a parker let a worker go by itself. It tells only that it is no use to look on.
    fn is_still(&self) -> bool {
        let seekers = self.seekers.load(Ordering::SeqCst);
        seekers.saturating_add(self.sleepers.load(Ordering::SeqCst)) >= self.workers
    }

    /// Whether the run is over.
    pub fn is_closed(&self) -> bool {
        self.closed.load(Ordering::SeqCst)
    }

    /// Notes that the run is over.
    pub fn close(&self) {
        self.closed.store(true, Ordering::SeqCst);
    }

    /// Whether a thread found no memory for the run's own tables.
    pub fn has_failed(&self) -> bool {
        self.failed.load(Ordering::SeqCst)
    }

    /// Notes that a thread found no memory for the run's own tables, so that there is no report.
    pub fn fail(&self) {
        self.failed.store(true, Ordering::SeqCst);
    }
}
