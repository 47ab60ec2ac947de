//! The owner's calls, whatever stands behind the port.
ghost use Rattle.std.specs.Prelude.{◌≡◌, ◌↔◌, ◌<◌, Bool, false, true, List, IsErrOf, IsOk, length};
ghost use Rattle.port_model.specs.Timers.{due_times, is_active, IsLeast};
ghost use Rattle.port_model.specs.declared.plain_port.TheConstants.{MOST_SETS};
ghost use Rattle.port_model.specs.Calls.{after_reset, after_stop, NothingWaits, SetIs, TakeIs};
ghost use Rattle.port_model.specs.Ends.{OwnerState};
ghost use Rattle.port_model.specs.declared.inbox.entry.Entry.{Entry};

use crate::error::PortError;
use crate::inbox::entry::Fuse;
use crate::selection::Selection;
use crate::taken::Taken;
use crate::values::{Ticks, TimerKey};

/// The owner's calls of an input port, whatever stands behind it. After `stop` none of them is called: that is the
/// caller's condition.
pub trait Inbox {
    /// The state of the owner: what it has drawn and knows, and its port.
    ghost owning: { Self → OwnerState };

    /// The entries that it has drawn since its stop.
    ghost since: { Self → List Entry };

    /// Whether all that comes into the port from outside is drawn from a queue that threads share.
    ghost shared: { Bool };

    /// Takes from the port (Z.102, priority input, save). For lack of memory nothing is taken; where nothing comes in
    /// from a queue, none is wanted.
    fn take(&mut self, selection: &Selection) -> Result<Taken, PortError>
        requires { (Self.owning self.old).state.alive ≡ true }
        ensures since { Self.since self.new ≡ Self.since self.old }
        ensures alive { (Self.owning self.new).state.alive ≡ true }
        ensures take { TakeIs selection.now (Self.owning self.old) (Self.owning self.new) result }
        ensures unshared { Self.shared ≡ false → IsOk result };

    /// Whether nothing waits, by a look: nothing changes. If so, all that the owner knows of is drawn, too. If something
    /// comes from a queue that threads share, the look may be late.
    fn is_quiet(&mut self) -> bool
        ensures since { Self.since self.new ≡ Self.since self.old }
        ensures same { Self.owning self.new ≡ Self.owning self.old }
        ensures quiet { result ≡ true → NothingWaits (Self.owning self.old) }
        ensures waits { Self.shared ≡ false → result ≡ false → 0 < length (Self.owning self.old).state.waiting };

    /// Sets a timer for the time `due`, after a reset.
    fn set(&mut self, key: TimerKey, due: Ticks) -> Result<Fuse, PortError>
        requires { (Self.owning self.old).state.alive ≡ true }
        ensures since { Self.since self.new ≡ Self.since self.old }
        ensures set { SetIs (Self.owning self.old) (Self.owning self.new) key due result }
        ensures spent { IsErrOf result PortError.SetsSpent ↔ ((Self.owning self.old).state.sets ≡ MOST_SETS) };

    /// Resets a timer.
    fn reset(&mut self, key: &TimerKey)
        requires { (Self.owning self.old).state.alive ≡ true }
        ensures since { Self.since self.new ≡ Self.since self.old }
        ensures reset { Self.owning self.new ≡ after_reset (Self.owning self.old) key.now };

    /// Whether a timer is active.
    fn active(&self, key: &TimerKey) -> bool
        requires { (Self.owning self.now).state.alive ≡ true }
        ensures { result ≡ is_active key.now (Self.owning self.now).state.timers };

    /// The least due time of a timer that is set and has not expired.
    fn next_due(&self) -> Option<Ticks>
        requires { (Self.owning self.now).state.alive ≡ true }
        ensures { IsLeast (due_times (Self.owning self.now).state.timers) result };

    /// Ends the port (Z.101, stop).
    fn stop(&mut self)
        requires { (Self.owning self.old).state.alive ≡ true }
        ensures since { Self.since self.new ≡ Self.since self.old }
        ensures stop { Self.owning self.new ≡ after_stop (Self.owning self.old) };
}
