//! The ports of a run, which all threads share.

ghost use Rattle.std.specs.Prelude.{◌≡◌, [], IfOk, IfSome, is_some, true, vec_len};
ghost use Rattle.input_port.specs.QueueEnds.{newborn};
ghost use Rattle.run_semantics.specs.World.{has_port};
ghost use Rattle.threads_ports.specs.Named.{AreMade, AreNamed};
ghost use Rattle.threads_ports.specs.Peers.{put_by};

use crate::birth::NewPorts;
use crate::desks::Desks;
use crate::owners::Owners;
use crate::senders::Run;
use input_port::{Owner, Port, Sender};
use port_model::PortError;
use std::marker::PhantomData;
use std::sync::{Mutex, Wait};

/// The ports of the run `J`, one for each of the numbers 1 to 1,000. All threads share them by `&`. A put and a take
/// need no lock; who asks for a sender or for an owner takes one for a moment.
#[derive(Drop)]
pub struct Ports<J: Run> {
    rows: Vec<Port>,
    desks: Mutex<Desks<J>>,
    owners: Mutex<Owners<J>>,
    ghost all: { vec_len rows ≡ 1000 },
    ghost named: { AreNamed J.ports rows.items },
}

impl<J: Run> Ports<J> {
    /// The ports of the run. That they have the names that the run gives them is the caller's condition.
    pub fn new(made: NewPorts) -> Self
        requires all { vec_len made.rows ≡ 1000 }
        requires ports { AreNamed J.ports made.rows.items }
        requires made { AreMade made.rows.items made.desks.items made.owners.items }
    {
        let NewPorts {
            rows,
            desks,
            owners,
        } = made;
        Ports {
            rows,
            desks: Mutex::new(Desks::new(desks)),
            owners: Mutex::new(Owners::new(owners)),
        }
    }

    /// The port of this number. None: no instance can have the number.
    pub fn port(&self, number: u32) -> Option<&Port>
        ensures there { is_some result ≡ has_port number }
        ensures named { IfSome result (λ port. port.now.queue ≡ J.ports number) }
    {
        self.rows.get(number.checked_sub(1)? as usize)
    }

    /// The owner of the port of this number, which has taken nothing. None: it was given out before, or no instance can
    /// have the number.
    pub fn owner<R: Wait>(&self, rt: &R, number: u32) -> Option<Owner>
        ensures { IfSome result (λ owner. owner ≡ newborn (J.ports number) number) }
    {
        self.port(number)?;
        // Known before: what stands at this number is its owner or nothing, by the type of what is locked. After: the
        // owner is the caller's alone, and nothing stands there any more. Nobody waits for it, so nobody is woken.
        self.owners.lock(rt).give(number)
    }

    /// A sender into the port of this number, which has put nothing. Refused once the port has given out 1,001 of them.
    pub fn sender<R: Wait>(&self, rt: &R, number: u32) -> Result<Sender, PortError>
        requires { has_port number ≡ true }
        ensures named { IfOk result (λ sender. sender.port ≡ J.ports number) }
        ensures fresh { IfOk result (λ sender. put_by sender ≡ []) }
    {
        let Some(port) = self.port(number) else {
            unreachable!()
        };
        // Known before: the desk at this number is that of its port, by the type of what is locked. After: it has given
        // out one sender more, which is the caller's alone. Nobody waits for it, so nobody is woken.
        self.desks.lock(rt).sender(port, number)
    }

    /// How many senders the port of this number has given out so far.
    pub fn given<R: Wait>(&self, rt: &R, number: u32) -> u32
        requires { has_port number ≡ true }
    {
        // A look: others may ask the desk for senders before the lock is taken and once it is left.
        self.desks.lock(rt).given(number)
    }
}
