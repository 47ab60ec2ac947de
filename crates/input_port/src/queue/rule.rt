//! The rule of a port, and what each atomic step tells.

use crossbeam_queue::protocol::{Join, Lesson, Outcome, Protocol, Split};
use crossbeam_queue::{RuledSegQueue, SegPass};
use port_model::{Gone, Placed, PutCount, SenderNumber};
use std::collections::LinkedList;

/// The rights of a pass, and what it knows. No value of it is made.
pub struct View {
    /// It gives out numbers, and has given those up to `number`.
    pub gives: bool,
    /// It puts under `number`, and has put `count` entries.
    pub sends: bool,
    /// It takes.
    pub takes: bool,
    pub number: SenderNumber,
    pub count: PutCount,
    /// The beginning of the put list that it has seen; the owner's is its known list.
    pub seen: LinkedList<Placed>,
    /// The shorter of the two lists at the owner's last gathering.
    pub told: LinkedList<Placed>,
    pub drawn: LinkedList<Placed>,
    /// The senders that the owner has gathered, the last one first.
    pub gathered: LinkedList<Gone>,
}

pub struct OnePort;

impl Protocol<Placed, View> for OnePort {
    ghost use Rattle.input_port.specs.Rule.{Kept};
    ghost use Rattle.input_port.specs.Views.{whole};

    ghost holds = { Kept };

    ghost first = { whole };
}

/// The first pass in two: the owner's and the desk's.
pub struct Ends;

impl Split<View> for Ends {
    ghost use Rattle.input_port.specs.Views.{desk, owner_of};

    ghost left = { owner_of };

    ghost right = { λ v. desk v.number };
}

/// A new sender, from the desk's pass.
pub struct NewSender;

impl Split<View> for NewSender {
    ghost use Rattle.std.specs.Prelude.{◌+◌, []};
    ghost use Rattle.input_port.specs.Views.{desk, sender};

    ghost left = { λ v. desk (v.number + 1) };

    ghost right = { λ v. sender (v.number + 1) 0 [] };
}

/// A sender goes to the owner, which then knows all that it had seen.
pub struct Gathers;

impl Join<View> for Gathers {
    ghost use Rattle.input_port.specs.Views.{gathers, spent};

    ghost both = { gathers };

    ghost spent = { spent };
}

/// The sender that was gathered last comes back, and has seen all that the owner knows.
pub struct SendsAgain;

impl Split<View> for SendsAgain {
    ghost use Rattle.input_port.specs.Views.{last_gathered, without_last};

    ghost left = { without_last };

    ghost right = { last_gathered };
}

/// A push: the entry stands behind all that the sender had seen.
pub struct Pushed;

impl Outcome<Placed, View> for Pushed {
    ghost use Rattle.input_port.specs.Steps.{Adds};

    ghost then = { Adds };
}

/// A pop with an entry, which is drawn; and one without, a fresh point.
pub struct Popped;

impl Outcome<Placed, View> for Popped {
    ghost use Rattle.input_port.specs.Steps.{Draws};

    ghost then = { Draws };
}

impl Lesson<Placed, View> for Popped {
    ghost use Rattle.input_port.specs.Steps.{IsFresh};

    ghost fact = { IsFresh };
}

/// The queue of a port, under its rule.
pub type Queue = RuledSegQueue<Placed, View, OnePort>;

/// A caller's pass to a queue: what it may do there, and what it knows.
pub type Pass = SegPass<Placed, View>;
