//! What an instance asks of all that lies outside of it.

ghost use Rattle.std.specs.Prelude.{◌≡◌, true, Bool, IfOk, OnOk, OnErr};

use port_model::{Fuse, Item, SignalId, Ticks, Values};
use sdl_system::{Dest, ProcessId, System, Target};
use std::alloc::AllocError;

/// The world outside of an instance, as the instance makes a step.
pub trait World {
    ghost use Rattle.run_semantics.specs.Effect.{Arm, Send};
    ghost use Rattle.run_semantics.specs.Leads.{created};
    ghost use Rattle.run_semantics.specs.World.{WorldValue, IsClock, IsNumber, IsRoute, after_effect, after_effects};

    ghost value: { Self → WorldValue };

    /// Whether there is room for one more fuse.
    ghost prepared: { Self → Bool };

    /// The clock.
    fn now(&mut self) -> Ticks
        ensures clock { IsClock (value self.old) result }
        ensures same { value self.new ≡ value self.old };

    /// Whom a signal reaches that an instance of `from`, a process of `system`, sends to the destination `to`. The
    /// routes are those of the instance's system, and nothing else says that a world has the same one.
    fn route(&mut self, system: &System, signal: SignalId, from: ProcessId, to: Dest) -> Target
        ensures route { IsRoute system.now (value self.old) signal from to result }
        ensures same { value self.new ≡ value self.old };

    /// Sends a signal. For lack of memory it has not been sent.
    fn send(&mut self, target: Target, item: Item) -> Result<(), AllocError>
        ensures ok { OnOk result (value self.new ≡ after_effect (value self.old) (Send target item)) }
        ensures err { OnErr result (value self.new ≡ value self.old) };

    /// Makes room for one more fuse.
    fn prepare(&mut self) -> Result<(), AllocError>
        ensures prepared { OnOk result (prepared self.new ≡ true) }
        ensures same { value self.new ≡ value self.old };

    /// Keeps the fuse of a timer that was set, which expires at its due time, or at once if that has come. Takes no
    /// memory. No time is given: the world keeps the one reading of the clock that its step made. Room was made by
    /// `prepare`, since a timer that was set without its fuse would never expire.
    fn arm(&mut self, fuse: Fuse)
        requires { prepared self.old ≡ true }
        ensures { value self.new ≡ after_effect (value self.old) (Arm fuse) };

    /// Makes an instance of a process, for the instance of the number `parent`, with the values of its parameters. The
    /// number of the new instance is the answer; None: as many live as may. For lack of memory nothing has changed.
    fn create(
        &mut self,
        process: ProcessId,
        parent: u32,
        values: Values,
    ) -> Result<Option<u32>, AllocError>
        ensures number { IfOk result (IsNumber (value self.old) process) }
        ensures ok { IfOk result (λ number. value self.new
            ≡ after_effects (value self.old) (created process parent values number)) }
        ensures err { OnErr result (value self.new ≡ value self.old) };
}
