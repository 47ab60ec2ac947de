//! What is left of an instance.

ghost use Rattle.std.specs.Prelude.{◌≡◌};
ghost use Rattle.settle_closing.specs.Left.{IsLeftOfOne};
ghost use Rattle.settle_closing.specs.PortThen.{then_of};

use crate::ending::PortThen;
use input_port::Held;
use port_model::CourseLog;
use run_record::Record;
use std::marker::Model;
use std::sync::Wait;
use threads_instance::{Gifts, Left};
use threads_ports::{Peers, Run};

/// A closed instance: its record, its port, its senders, what it was given and gave, and what is kept of its course. The
/// type keeps that the record is a run of the instance's process, which began with the values that it was given and created
/// the children to which it gave theirs, that in a `whole` run the instance was at rest, and what the senders have put.
#[derive(Drop)]
pub struct Closing<'p, J: Run, R: Wait + Copy> {
    whole: bool,
    trace: Record,
    inbox: Held<'p, R>,
    peers: Peers<J>,
    gifts: Gifts,
    course: CourseLog,
}

impl<'p, J: Run, R: Wait + Copy> Model for Closing<'p, J, R> {
    ghost use Rattle.settle_closing.specs.Left.{ClosingState, IsLeftOfOne};

    ghost Value = { ClosingState };

    ghost view = { λ c. record {
      whole = c.whole;
      trace = c.trace;
      owner = c.inbox.owner;
      peers = c.peers;
      given = c.gifts.given;
      children = c.gifts.children.items;
      course = c.course;
    } };

    ghost invariant = { λ c. IsLeftOfOne J.system J.ports c.whole c.trace c.inbox.owner c.peers c.gifts.given
        c.gifts.children.items };
}

impl<'p, J: Run, R: Wait + Copy> Closing<'p, J, R> {
    /// A closed instance of what is left of it. That this is left of one is the caller's condition.
    pub fn new(whole: bool, left: Left<J, Held<'p, R>>) -> Self
        requires { IsLeftOfOne J.system J.ports whole left.trace left.inbox.owner left.peers left.gifts.given
            left.gifts.children.items }
        ensures { result ≡ record {
          whole = whole;
          trace = left.entry.trace;
          owner = left.entry.inbox.owner;
          peers = left.entry.peers;
          given = left.entry.gifts.given;
          children = left.entry.gifts.children.items;
          course = left.entry.course;
        } }
    {
        let Left {
            trace,
            inbox,
            peers,
            gifts,
            course,
        } = left;
        Closing {
            whole,
            trace,
            inbox,
            peers,
            gifts,
            course,
        }
    }

    /// Whether the run is whole.
    pub fn whole(&self) -> bool
        ensures { result ≡ self.now.whole }
    {
        self.whole
    }

    /// The record.
    pub fn trace(&self) -> &Record
        ensures { result.now ≡ self.now.trace }
    {
        &self.trace
    }

    /// The state of the port as it is now: whether it lives, and how many entries wait that were drawn.
    pub fn port_then(&self) -> PortThen
        ensures { result ≡ then_of self.now.owner }
    {
        PortThen {
            lived: !self.inbox.is_stopped(),
            waiting: self.inbox.waiting(),
        }
    }

    /// That it is left of an instance, as a fact.
    pub fn is_left(&self)
        ensures { let c = self.now in
            IsLeftOfOne J.system J.ports c.whole c.trace c.owner c.peers c.given c.children }
    {
        let _trace = &self.trace;
    }

    /// What is left of the instance.
    pub fn into_left(self) -> Left<J, Held<'p, R>>
        ensures trace { result.trace ≡ self.entry.trace }
        ensures owner { result.inbox.owner ≡ self.entry.owner }
        ensures peers { result.peers ≡ self.entry.peers }
        ensures given { result.gifts.given ≡ self.entry.given }
        ensures children { result.gifts.children.items ≡ self.entry.children }
        ensures course { result.course ≡ self.entry.course }
    {
        let Closing {
            trace,
            inbox,
            peers,
            gifts,
            course,
            ..
        } = self;
        Left {
            trace,
            inbox,
            peers,
            gifts,
            course,
        }
    }
}
