//! The owners of a run's ports.

ghost use Rattle.std.specs.Prelude.{◌≡◌, IfSome, true, vec_len};
ghost use Rattle.input_port.specs.QueueEnds.{newborn};
ghost use Rattle.run_semantics.specs.World.{has_port};
ghost use Rattle.threads_ports.specs.Named.{HaveOwners};
ghost use Rattle.threads_ports.specs.Owners.{owner_of, without_owner};

use crate::senders::Run;
use input_port::Owner;
use std::marker::{Model, PhantomData};

/// For each number the owner of its port, until it is given out.
#[derive(Drop)]
pub struct Owners<J: Run> {
    rows: Vec<Option<Owner>>,
    of: PhantomData<J>,
}

impl<J: Run> Model for Owners<J> {
    ghost use Rattle.std.specs.Prelude.{◌≡◌, vec_len};
    ghost use Rattle.threads_ports.specs.Named.{HaveOwners};
    ghost use Rattle.threads_ports.specs.Owners.{OwnersState};

    ghost Value = { OwnersState };

    ghost view = { λ o. o.rows.items };

    ghost invariant = { λ o. (vec_len o.rows ≡ 1000) × HaveOwners J.ports o.rows.items };
}

impl<J: Run> Owners<J> {
    /// The owners of the run's ports, by their numbers.
    pub fn new(rows: Vec<Option<Owner>>) -> Self
        requires all { vec_len rows ≡ 1000 }
        requires named { HaveOwners J.ports rows.items }
        ensures { result ≡ rows.items }
    {
        Owners {
            rows,
            of: PhantomData,
        }
    }

    /// The owner of the port of this number, which has taken nothing. None: it was given out before. After the call
    /// there is none of this number, and those of all others stay.
    pub fn give(&mut self, number: u32) -> Option<Owner>
        requires { has_port number ≡ true }
        ensures given { result ≡ owner_of self.old number }
        ensures left { self.new ≡ without_owner self.old number }
        ensures fresh { IfSome result (λ owner. owner ≡ newborn (J.ports number) number) }
    {
        self.rows[number as usize - 1].take()
    }
}
