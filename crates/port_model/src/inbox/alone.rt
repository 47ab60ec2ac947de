//! The port of one thread as an inbox.
ghost use Rattle.std.specs.Prelude.{◌≡◌, ◌==◌, ◌&&◌, [], true, MatchResult, OnErr};
ghost use Rattle.port_model.specs.Port.{empty_port, expires, is_spent, put_into};
ghost use Rattle.port_model.specs.Calls.{after_entry, ComesBack};
ghost use Rattle.port_model.specs.declared.inbox.entry.Entry.TheVariants.{Timer};

use crate::error::PortError;
use crate::inbox::calls::Inbox;
use crate::inbox::entry::{Fuse, FuseParts};
use crate::inbox::fused;
use crate::plain_port::PlainPort;
use crate::refused::Refused;
use crate::selection::Selection;
use crate::taken::Taken;
use crate::values::{Item, Ticks, TimerKey};
use std::alloc::Global;
use std::marker::Model;

/// An input port for one thread, which is its own sender: what is put stands in the port at once.
#[derive(Drop)]
pub struct Alone {
    pid: u32,
    plain: PlainPort,
}

impl Model for Alone {
    ghost use Rattle.port_model.specs.Ends.{AloneState};

    ghost Value = { AloneState };

    ghost view = { λ a. record { pid = a.pid; state = a.plain.state; armed = a.plain.armed } };
}

impl Alone {
    /// An empty port of the instance `pid`. Takes no memory.
    pub fn new(alloc: Global, pid: u32) -> Self
        ensures { result ≡ record { pid = pid; state = empty_port; armed = [] } }
    {
        Alone {
            pid,
            plain: PlainPort::new(alloc),
        }
    }

    /// Puts a signal behind all that waits. A stopped port drops it. For lack of memory the signal comes back.
    #[inline(always)]
    pub fn put(&mut self, item: Item) -> Result<(), Refused<Item>>
        ensures state { MatchResult result
            (λ _. self.new ≡ record self.old { state = put_into self.old.state item })
            (λ back. ComesBack back item × (self.new ≡ self.old)) }
        ensures alive { self.new.state.alive ≡ self.old.state.alive }
        ensures refused { OnErr result (self.old.state.alive ≡ true) }
    {
        self.plain.put(item)
    }

    /// Expires a timer, and says whether its signal was put: before its time, after another set or a reset, and by the
    /// fuse of another port, nothing changes. For lack of memory the fuse comes back. It asks nothing of the time,
    /// since an early expiry changes nothing.
    pub fn expire(&mut self, fuse: Fuse, at: Ticks) -> Result<bool, Refused<Fuse>>
        ensures expired { MatchResult result
            (λ expired. expired ≡ ((fuse.pid == self.old.pid) && expires self.old.state fuse.key fuse.arm fuse.due at))
            (λ back. ComesBack back fuse) }
        ensures state { MatchResult result
            (λ _. self.new ≡ record self.old { state = after_entry self.old.pid self.old.state at (Timer fuse) })
            (λ _. self.new ≡ self.old) }
        ensures alive { self.new.state.alive ≡ self.old.state.alive }
        ensures refused { OnErr result ((fuse.pid ≡ self.old.pid)
            × (expires self.old.state fuse.key fuse.arm fuse.due at ≡ true)) }
    {
        // The fuse of another port isn't refused: that would need an error of its own on each face.
        if fuse.pid() != self.pid {
            return Ok(false);
        }
        let FuseParts { key, arm, due } = fuse.into_parts();
        match self.plain.expire(key, arm, due, at) {
            Ok(expired) => Ok(expired),
            Err(Refused { error, value: key }) => Err(Refused {
                error,
                value: Fuse::new(self.pid, key, arm, due),
            }),
        }
    }

    /// Whether the set of a fuse of this port is spent: the timer runs by it no more. An expiry by the fuse changes
    /// nothing then, nor will one later.
    pub fn is_spent(&self, fuse: &Fuse) -> bool
        ensures { result ≡ is_spent self.now.state fuse.now.key fuse.now.arm fuse.now.due }
    {
        self.plain.is_spent(fuse.key(), fuse.arm(), fuse.due())
    }
}

impl Inbox for Alone {
    ghost use Rattle.std.specs.Prelude.{false, []};
    ghost use Rattle.port_model.specs.Ends.{single};

    ghost owning = { λ a. single a.pid a.state a.armed };

    ghost since = { λ a. [] };

    ghost shared = { false };

    #[inline(always)]
    fn take(&mut self, selection: &Selection) -> Result<Taken, PortError> {
        Ok(self.plain.take(selection))
    }

    #[inline(always)]
    fn is_quiet(&mut self) -> bool {
        self.plain.is_empty()
    }

    fn set(&mut self, key: TimerKey, due: Ticks) -> Result<Fuse, PortError> {
        fused::set(&mut self.plain, self.pid, key, due)
    }

    fn reset(&mut self, key: &TimerKey) {
        self.plain.reset(key);
    }

    fn active(&self, key: &TimerKey) -> bool {
        self.plain.active(key)
    }

    fn next_due(&self) -> Option<Ticks> {
        self.plain.next_due()
    }

    fn stop(&mut self) {
        self.plain.stop();
    }
}
