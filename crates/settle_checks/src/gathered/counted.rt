//! A port that was counted.

ghost use Rattle.std.specs.Prelude.{◌≡◌, IfSome};
ghost use Rattle.input_port.specs.Kept.{senders_of};
ghost use Rattle.settle_checks.specs.Gathering.{IsCounted};

use crate::gathered::Fixed;
use input_port::Held;
use std::marker::{Model, PhantomData};
use std::sync::Wait;
use threads_ports::Run;

/// A port of which as many signals were drawn as the senders of all places have put. `at` is its place among the
/// owners, `number` its number, and there are so many `places`.
#[derive(Drop)]
pub struct Counted<'a, J: Run, K: Fixed, R: Wait + Copy> {
    at: u32,
    number: u32,
    places: u32,
    inbox: Held<'a, R>,
    of: PhantomData<(J, K)>,
}

impl<'a, J: Run, K: Fixed, R: Wait + Copy> Model for Counted<'a, J, K, R> {
    ghost use Rattle.settle_checks.specs.Gathering.{CountedState, IsCounted};

    ghost Value = { CountedState };

    ghost view = { λ c. record { at = c.at; number = c.number; places = c.places; owner = c.inbox.owner } };

    ghost invariant = { λ c. IsCounted (K.puts c.number) c.places (K.owners c.at) c.inbox.owner };
}

impl<'a, J: Run, K: Fixed, R: Wait + Copy> Counted<'a, J, K, R> {
    /// A port that was counted: that it was is the caller's condition.
    pub(crate) fn new(at: u32, number: u32, places: u32, inbox: Held<'a, R>) -> Self
        requires { IsCounted (K.puts number) places (K.owners at) inbox.owner }
        ensures { result ≡ record { at = at; number = number; places = places; owner = inbox.entry.owner } }
    {
        Counted {
            at,
            number,
            places,
            inbox,
            of: PhantomData,
        }
    }

    /// The number of the port.
    pub fn number(&self) -> u32
        ensures { result ≡ self.now.number }
    {
        self.number
    }

    /// How many places were gathered.
    pub fn places(&self) -> u32
        ensures { result ≡ self.now.places }
    {
        self.places
    }

    /// The port.
    pub fn inbox(&self) -> &Held<'a, R>
        ensures { result.now.owner ≡ self.now.owner }
    {
        &self.inbox
    }

    /// Of each entry that was drawn the number of its sender, in the order in which they were drawn. None: the numbers
    /// aren't kept.
    pub fn into_puts(self) -> Option<Vec<u32>>
        ensures { IfSome result (λ puts. puts.items ≡ senders_of self.entry.owner.drawn) }
    {
        self.inbox.into_puts()
    }

    /// That it was counted, as a fact.
    pub fn is_counted(&self)
        ensures { IsCounted (K.puts self.now.number) self.now.places (K.owners self.now.at) self.now.owner }
    {
        let _inbox = &self.inbox;
    }
}
