//! A site, where a thread makes the port of a number.

ghost use Rattle.std.specs.Prelude.{◌≡◌, IfOk};
ghost use Rattle.input_port.specs.QueueEnds.{newborn};
ghost use Rattle.threads_ports.specs.Site.{IsPortOf};

use input_port::birth;
use input_port::birth::NewPort;
use std::alloc::{AllocError, Global};
use std::marker::Model;

/// The number of a port, and the port once it is made. The value of a site is the number.
#[derive(Drop)]
pub(crate) struct Site {
    number: u32,
    made: Option<NewPort>,
}

impl Model for Site {
    ghost use Rattle.std.specs.Prelude.{ℕ};
    ghost use Rattle.threads_ports.specs.Site.{IsPortOf};

    ghost Value = { ℕ };

    ghost view = { λ s. s.number };

    ghost invariant = { λ s. IsPortOf s.number s.made };
}

impl Site {
    /// The site of a number, where no port is made yet.
    pub(crate) fn new(number: u32) -> Self
        ensures { result ≡ number }
    {
        Site { number, made: None }
    }

    /// Makes the port. For lack of memory none is there.
    pub(crate) fn make(&mut self, alloc: Global)
        ensures { self.new ≡ self.old }
    {
        self.made = port(alloc, self.number).ok();
    }

    /// The port, if it is made.
    pub(crate) fn into_port(self) -> Option<NewPort>
        ensures { IsPortOf self result }
    {
        self.made
    }
}

/// The port of a number. A port is refused for lack of memory alone.
fn port(alloc: Global, number: u32) -> Result<NewPort, AllocError>
    ensures owner { IfOk result (λ made. made.owner ≡ newborn made.port.queue number) }
    ensures desk { IfOk result (λ made. made.desk.port ≡ made.port.queue) }
{
    match birth::port(alloc, number) {
        Ok(made) => Ok(made),
        Err(_) => Err(AllocError),
    }
}
