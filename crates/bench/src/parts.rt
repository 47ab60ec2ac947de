//! What a run takes, by its parts.

use sdl_workers::{Gate, Stage, Watch};
use std::sync::Wait;
use std::sync::atomic::{AtomicU64, Ordering};
use std::time::{Clock, Duration, Instant};
use std::{fmt, io};

/// How long the parts of a run took.
#[derive(Clone, Copy)]
pub struct Parts {
    /// With workers until all threads are joined; of a serial run until its report is there.
    pub run: Duration,
    /// With workers what is left until the report is there.
    pub settling: Duration,
    /// The text of the report.
    pub report: Duration,
    /// Then what the run had is released: with workers its ports, and the report.
    pub release: Duration,
}

impl fmt::Display for Parts {
    fn fmt<W: fmt::Write>(&self, f: &mut fmt::Formatter<W>) -> fmt::Result {
        write!(f, "run {} us, ", self.run.as_micros())?;
        write!(f, "settling {} us, ", self.settling.as_micros())?;
        write!(f, "report {} us, ", self.report.as_micros())?;
        write!(f, "release {} us", self.release.as_micros())
    }
}

/// A watch that notes by a clock when a run has come so far, in microseconds since it was made.
#[derive(Drop)]
pub struct Stopwatch<'r, C: Clock> {
    clock: &'r C,
    start: Instant,
    joined: AtomicU64,
    settled: AtomicU64,
}

impl<'r, C: Clock> Stopwatch<'r, C> {
    /// A watch that begins now.
    pub fn new(clock: &'r C) -> io::Result<Self> {
        let start = Instant::now(clock)?;
        Ok(Stopwatch {
            clock,
            start,
            joined: AtomicU64::new(0),
            settled: AtomicU64::new(0),
        })
    }

    /// How long it is since it was made.
    pub fn elapsed(&self) -> io::Result<Duration> {
        self.start.elapsed(self.clock)
    }

    /// The parts of a run that was over after `ran`, whose text was made after `told`, and which was released after
    /// `released`. A serial run notes nothing.
    pub fn parts(&self, ran: Duration, told: Duration, released: Duration) -> Parts {
        let (joined, settled) = match self.joined.load(Ordering::SeqCst) {
            0 => (ran, ran),
            joined => {
                let settled = self.settled.load(Ordering::SeqCst);
                (
                    Duration::from_micros(joined),
                    Duration::from_micros(settled),
                )
            }
        };
        let after_run = ran.saturating_sub(settled);
        Parts {
            run: joined,
            settling: settled.saturating_sub(joined),
            report: told.saturating_sub(ran),
            release: after_run.saturating_add(released.saturating_sub(told)),
        }
    }
}

impl<'r, C: Clock> Gate for Stopwatch<'r, C> {
    fn begun<R: Wait>(&self, _rt: &R, _number: u32) {}
}

impl<'r, C: Clock> Watch for Stopwatch<'r, C> {
    fn reached(&self, stage: Stage) {
        // A clock that can't be read ends the measurement later, where the whole time is asked for.
        let Ok(elapsed) = self.elapsed() else { return };
        let micros = u64::from(elapsed.subsec_micros());
        let at = elapsed
            .as_secs()
            .saturating_mul(1_000_000)
            .saturating_add(micros);
        match stage {
            Stage::Joined => self.joined.store(at, Ordering::SeqCst),
            Stage::Settled => self.settled.store(at, Ordering::SeqCst),
        }
    }
}
