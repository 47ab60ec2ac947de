//! What gives out the senders of a port.

ghost use Rattle.std.specs.Prelude.{◌≡◌, ◌+◌, ◌<◌, ◌≤◌, [], None, MatchResult};
ghost use Rattle.input_port.specs.Views.{desk};

use crate::queue::rule::Pass;
use crate::queue::sender::Sender;
use crate::queue::shared::Port;
use crate::queue::steps;
use port_model::{PortError, SenderNumber};
use std::marker::Model;

/// How many senders a port has at most: one for each instance and one for the script.
pub const MOST_SENDERS: u32 = 1001;

/// The desk of a port. It gives out the senders, each with a number of its own, from 1.
#[derive(Drop)]
pub struct Desk {
    pass: Pass,
    given: u32,
}

impl Model for Desk {
    ghost use Rattle.std.specs.Prelude.{◌≡◌, None};
    ghost use Rattle.input_port.specs.QueueEnds.{DeskState, IsOfDesk};

    ghost Value = { DeskState };

    ghost view = { λ d. record { port = record { web = d.pass.web; heap = d.pass.heap }; given = d.given } };

    ghost invariant = { λ d. IsOfDesk d.pass.me.view.client d.given × (d.pass.me.hand ≡ None)
        × (d.pass.me.spare ≡ None) };
}

impl Desk {
    /// A desk that has given out no number, from its pass.
    pub fn new(pass: Pass) -> Self
        requires view { pass.me.view.client ≡ desk 0 }
        requires free { (pass.me.hand ≡ None) × (pass.me.spare ≡ None) }
        ensures { result ≡ record { port = record { web = pass.web; heap = pass.heap }; given = 0 } }
    {
        Desk { pass, given: 0 }
    }

    /// How many senders have been given out.
    pub fn given(&self) -> u32
        ensures { result ≡ self.now.given }
    {
        self.given
    }

    /// A sender with the next number, which has put nothing. Refused with `TooManySenders` after 1,001 of them. That
    /// the port is the desk's is the caller's condition.
    pub fn sender(&mut self, port: &Port) -> Result<Sender, PortError>
        requires { self.old.port ≡ port.now.queue }
        ensures port { self.new.port ≡ self.old.port }
        ensures sender { MatchResult result (λ s. (s ≡ record {
          port = self.old.port;
          number = self.old.given + 1;
          seen = [];
        }) × (self.new.given ≡ self.old.given + 1) × (self.old.given < 1001))
            (λ error. (error ≡ PortError.TooManySenders) × (self.new ≡ self.old) × (1001 ≤ self.old.given)) }
    {
        if self.given >= MOST_SENDERS {
            return Err(PortError::TooManySenders);
        }
        let pass = steps::split_sender(&port.queue, &mut self.pass);
        self.given += 1;
        Ok(Sender::new(pass, SenderNumber::new(self.given)))
    }
}
