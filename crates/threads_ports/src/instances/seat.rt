//! What a thread draws numbers with.

ghost use Rattle.std.specs.Prelude.{◌≡◌, ◌+◌, ◌≤◌, nat_le, [], ◌++◌, IfSome, MatchOption};
ghost use Rattle.threads_ports.specs.Ends.{seat_of, IsSeat};
ghost use Rattle.threads_ports.specs.Numbers.{EachOnce, AreOneTo};

use crate::instances::rule::Place;
use crate::instances::table::MOST_NUMBERS;
use crate::instances::{Table, steps};
use std::marker::Model;

/// How many seats the first one can split off.
pub(crate) const MOST_SPLITS: u32 = 63;

/// The seat with which a thread draws numbers. The right to draw has 64 parts: the first seat has all of them, and each
/// seat that it splits off has one.
#[derive(Drop)]
pub struct Seat {
    pub(crate) place: Place,
    left: u32,
    pub(crate) seen: u32,
}

impl Model for Seat {
    ghost use Rattle.threads_ports.specs.Ends.{seat_of, SeatState, IsSeat};

    ghost Value = { SeatState };

    ghost view = { λ s. seat_of s.place.table_id s.place.me s.left };

    ghost invariant = { λ s. IsSeat s.place.table_id s.place.me s.left s.seen };
}

impl Seat {
    pub(crate) fn new(place: Place, left: u32, seen: u32) -> Self
        requires { IsSeat place.table_id place.me left seen }
        ensures { result ≡ seat_of place.table_id place.me left }
    {
        Seat { place, left, seen }
    }

    /// Whether the seat has seen all numbers drawn.
    pub(crate) fn is_full(&self) -> bool
        ensures full { result ≡ nat_le 1000 self.now.seen }
        ensures once { EachOnce self.now.drawn }
        ensures whole { self.now.parts ≡ 64 → AreOneTo self.now.seen self.now.drawn }
    {
        self.seen >= MOST_NUMBERS
    }

    /// A new seat, for another thread: it has drawn nothing, and has seen as many numbers drawn as this one. 63 times
    /// for the first seat of a table, `None` from then on; always `None` for the others. That the table is the seat's
    /// is the caller's condition.
    pub fn again(&mut self, table: &Table) -> Option<Seat>
        requires { self.old.table ≡ table.now.id }
        ensures same { (self.new.table ≡ self.old.table) × (self.new.drawn ≡ self.old.drawn)
            × (self.new.seen ≡ self.old.seen) }
        ensures rights { MatchOption result ((self.old.left ≡ 0) × (self.new ≡ self.old))
            (λ _. (self.old.left ≡ self.new.left + 1) × (self.old.parts ≡ self.new.parts + 1)) }
        ensures seat { IfSome result (λ seat. seat ≡ record {
          table = self.old.table;
          parts = 1;
          left = 0;
          drawn = [];
          seen = self.old.seen;
        }) }
    {
        if self.left == 0 {
            return None;
        }
        let place = steps::split(table.word(), &mut self.place);
        self.left -= 1;
        Some(Seat::new(place, 0, self.seen))
    }

    /// Takes a seat back, with its parts of the right and all that it drew. That the table is that of both seats is
    /// the caller's condition.
    pub fn gather(&mut self, table: &Table, seat: Seat)
        requires { (self.old.table ≡ table.now.id) × (seat.table ≡ table.now.id) }
        ensures table { self.new.table ≡ self.old.table }
        ensures rights { (self.new.parts ≡ self.old.parts + seat.parts) × (self.new.left ≡ self.old.left) }
        ensures drawn { self.new.drawn ≡ self.old.drawn ++ seat.drawn }
        ensures seen { (self.old.seen ≤ self.new.seen) × (seat.seen ≤ self.new.seen) × (self.new.seen ≤ 1000) }
        ensures once { EachOnce self.new.drawn }
        ensures whole { self.new.parts ≡ 64 → AreOneTo self.new.seen self.new.drawn }
    {
        // Taking a seat back doesn't renew its part of the right. It makes one load more, at which the rule shows that
        // the joined list has no number twice. A seat's list of numbers exists in proofs alone.
        steps::take_back(table.word(), &mut self.place, seat.into_place());
        let draws = steps::look(table.word(), &mut self.place);
        self.seen = draws.min(u64::from(MOST_NUMBERS)) as u32;
    }

    fn into_place(self) -> Place
        ensures table { (result.table_id ≡ self.table) × (result.me.1 ≡ []) }
        ensures rights { (result.me.0.parts ≡ self.parts) × (result.me.0.drawn ≡ self.drawn)
            × (result.me.0.seen ≡ self.seen) }
    {
        self.place
    }
}
