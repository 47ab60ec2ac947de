//! What an instance asks of the run on threads that it is of.

ghost use Rattle.std.specs.Prelude.{◌≡◌, ◌++◌, ◌∷◌, [], true, Bool, List, IfOk, IfSome, None, OnOk, is_some};
ghost use Rattle.port_model.specs.declared.inbox.entry.Fuse.{Fuse};
ghost use Rattle.threads_ports.specs.Peers.{put_by};
ghost use Rattle.run_semantics.specs.World.{IsRouteBy, has_port};

use input_port::{Port, Sender};
use port_model::{Fuse, SignalId, Values};
use sdl_system::{Dest, ProcessId, System, Target};
use std::alloc::AllocError;
use threads_ports::Run;

/// A run on threads, as one of its instances sees it in a step.
pub trait Runtime<J: Run> {
    /// Whether there is room for one more fuse.
    ghost prepared: { Self → Bool };

    /// The fuses that it keeps, in the order in which it got them.
    ghost kept: { Self → List Fuse };

    /// Whom a signal reaches that an instance of `from` sends to the destination `to`, by those that live now.
    fn route(&mut self, system: &System, signal: SignalId, from: ProcessId, to: Dest) -> Target
        ensures route { IsRouteBy system.now None signal from to result }
        ensures kept { kept self.new ≡ kept self.old };

    /// The port of the instance of this number. Each number from 1 to 1,000 has one, whether it was given or not.
    fn port(&self, number: u32) -> Option<&Port>
        ensures there { is_some result ≡ has_port number }
        ensures named { IfSome result (λ port. port.now.queue ≡ J.ports number) };

    /// Whether an instance of this number was made, so that a signal to it reaches its port, whether it lives still or
    /// not. Once it was, it always is. A signal to a number that nobody has yet is gone.
    fn is_entered(&mut self, number: u32) -> bool
        ensures kept { kept self.new ≡ kept self.old };

    /// A sender into the port of this number that has put nothing.
    fn sender(&mut self, number: u32) -> Result<Sender, AllocError>
        requires { has_port number ≡ true }
        ensures named { IfOk result (λ sender. sender.port ≡ J.ports number) }
        ensures fresh { IfOk result (λ sender. put_by sender ≡ []) }
        ensures kept { kept self.new ≡ kept self.old };

    /// Makes room for one more fuse.
    fn prepare(&mut self) -> Result<(), AllocError>
        ensures prepared { OnOk result (prepared self.new ≡ true) }
        ensures kept { kept self.new ≡ kept self.old };

    /// Keeps a fuse, to expire once its time has come. Takes no memory.
    fn keep(&mut self, fuse: Fuse)
        requires { prepared self.old ≡ true }
        ensures { kept self.new ≡ kept self.old ++ fuse ∷ [] };

    /// Makes an instance of a process, for the instance of the number `parent`, with the values of its parameters: at one
    /// moment it is entered and lives. Its number is the answer; None: as many live as may, or all numbers are given. For
    /// lack of memory nobody is entered, and nobody lives who didn't before; a number may be spent, which nobody gets then.
    fn create(
        &mut self,
        process: ProcessId,
        parent: u32,
        values: Values,
    ) -> Result<Option<u32>, AllocError>
        ensures kept { kept self.new ≡ kept self.old };
}
