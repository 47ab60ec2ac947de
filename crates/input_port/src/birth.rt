//! How a port is made.

ghost use Rattle.std.specs.Prelude.{◌≡◌, MatchResult};
ghost use Rattle.input_port.specs.QueueEnds.{newborn};

use crate::owner::Owner;
use crate::queue::{Desk, Port, steps};
use port_model::PortError;
use std::alloc::Global;

/// A port, as it is made: what all threads share, its owner, and the desk that gives out its senders.
#[derive(Drop)]
pub struct NewPort {
    pub port: Port,
    pub owner: Owner,
    pub desk: Desk,
}

/// An empty port of the instance `pid`. Refused for lack of memory.
pub fn port(alloc: Global, pid: u32) -> Result<NewPort, PortError>
    ensures error { MatchResult result (λ _. Unit {0}) (λ error. error ≡ PortError.Memory) }
    ensures port { MatchResult result (λ made. made.port.pid ≡ pid) (λ _. Unit {0}) }
    ensures owner { MatchResult result (λ made. made.owner ≡ newborn made.port.queue pid) (λ _. Unit {0}) }
    ensures desk { MatchResult result (λ made. made.desk ≡ record { port = made.port.queue; given = 0 })
        (λ _. Unit {0}) }
{
    // This function has a module of its own: a function and a type whose names differ in case alone can't be in one.
    let Ok((queue, mut pass)) = steps::open(alloc) else {
        return Err(PortError::Memory);
    };
    let desk = Desk::new(steps::split_ends(&queue, &mut pass));
    let owner = Owner::new(alloc, pid, pass);
    let port = Port::new(queue, pid);
    Ok(NewPort { port, owner, desk })
}
