//! The desks of a run's ports.

ghost use Rattle.std.specs.Prelude.{◌≡◌, ◌+◌, ◌<◌, ◌≤◌, [], IfOk, MatchResult, true, vec_len};
ghost use Rattle.run_semantics.specs.World.{has_port};
ghost use Rattle.threads_ports.specs.Desks.{given_of, with_one_more};
ghost use Rattle.threads_ports.specs.Named.{HaveDesks};
ghost use Rattle.threads_ports.specs.Peers.{put_by};

use crate::senders::Run;
use input_port::{Desk, Port, Sender};
use port_model::PortError;
use std::marker::{Model, PhantomData};

/// For each number the desk of its port, which gives out its senders.
#[derive(Drop)]
pub struct Desks<J: Run> {
    rows: Vec<Desk>,
    of: PhantomData<J>,
}

impl<J: Run> Model for Desks<J> {
    ghost use Rattle.std.specs.Prelude.{◌≡◌, vec_len};
    ghost use Rattle.threads_ports.specs.Desks.{DesksState};
    ghost use Rattle.threads_ports.specs.Named.{HaveDesks};

    ghost Value = { DesksState };

    ghost view = { λ d. d.rows.items };

    ghost invariant = { λ d. (vec_len d.rows ≡ 1000) × HaveDesks J.ports d.rows.items };
}

impl<J: Run> Desks<J> {
    /// The desks of the run's ports, by their numbers.
    pub fn new(rows: Vec<Desk>) -> Self
        requires all { vec_len rows ≡ 1000 }
        requires named { HaveDesks J.ports rows.items }
        ensures { result ≡ rows.items }
    {
        Desks {
            rows,
            of: PhantomData,
        }
    }

    /// A sender into the port of this number, with the next number there, which has put nothing. Refused only once the
    /// port has 1,001 of them. That the port is that of the number is the caller's condition.
    pub fn sender(&mut self, port: &Port, number: u32) -> Result<Sender, PortError>
        requires there { has_port number ≡ true }
        requires named { port.now.queue ≡ J.ports number }
        ensures named { IfOk result (λ sender. sender.port ≡ J.ports number) }
        ensures fresh { IfOk result (λ sender. put_by sender ≡ []) }
        ensures given { MatchResult result
            (λ sender. (sender.number ≡ given_of self.old number + 1) × (self.new ≡ with_one_more self.old number))
            (λ error. (error ≡ PortError.TooManySenders) × (self.new ≡ self.old) × (1001 ≤ given_of self.old number)) }
    {
        self.rows[number as usize - 1].sender(port)
    }

    /// How many senders the port of this number has given out.
    pub fn given(&self, number: u32) -> u32
        requires { has_port number ≡ true }
        ensures { result ≡ given_of self.now number }
    {
        self.rows[number as usize - 1].given()
    }
}
