//! How far a run is: a line on standard error that is written over, and is gone at the end.

use port_model::Ticks;
use sdl_engine::Listener;
use std::io::{IsTerminal, Stderr, Write};
use std::time::{Duration, Instant};

/// So many transitions are made between two looks at the system's clock, which cost more than a transition.
const BETWEEN_LOOKS: u64 = 65_536;

/// The time between two lines, in milliseconds.
const PAUSE: u64 = 500;

/// Clears the line that the cursor is in, and goes back to its beginning.
const CLEAR: &str = "\r\x1b[K";

/// Tells on a terminal how many transitions a run has made. Elsewhere it tells nothing.
#[derive(Drop)]
pub struct Progress<'r> {
    rt: &'r HostRuntime,
    stderr: Stderr,
    made: u64,
    /// When a line was written last, or when the run began. None: nothing is told.
    last: Option<Instant>,
    /// Whether a line is there.
    is_told: bool,
}

impl<'r> Progress<'r> {
    /// Nothing is told yet, and nothing ever if that isn't wanted.
    pub fn new(rt: &'r HostRuntime, is_wanted: bool) -> Self {
        let stderr = rt.stderr();
        let last = if is_wanted && stderr.is_terminal() {
            Instant::now(rt).ok()
        } else {
            None
        };
        Progress {
            rt,
            stderr,
            made: 0,
            last,
            is_told: false,
        }
    }

    /// Tells how far the run is, if it is some time since that was told.
    fn tell(&mut self, at: Ticks) {
        let Some(last) = self.last else {
            return;
        };
        let Ok(now) = Instant::now(self.rt) else {
            return;
        };
        if now.duration_since(last) < Duration::from_millis(PAUSE) {
            return;
        }
        let made = self.made;
        let at = at.get();
        let _ = write!(self.stderr, "{CLEAR}{made} transitions, time {at}");
        let _ = self.stderr.flush();
        self.last = Some(now);
        self.is_told = true;
    }
}

impl Listener for Progress<'_> {
    fn transition(&mut self, at: Ticks) {
        self.made = self.made.saturating_add(1);
        if self.made % BETWEEN_LOOKS == 0 {
            self.tell(at);
        }
    }

    fn end(&mut self) {
        if self.is_told {
            let _ = write!(self.stderr, "{CLEAR}");
            let _ = self.stderr.flush();
            self.is_told = false;
        }
    }
}
