//! The numbers of a run, and what a thread draws them with.

ghost use Rattle.std.specs.Prelude.{◌≡◌, ◌+◌, ◌<◌, ◌≤◌, [], ◌∷◌, ◌++◌, IfSome, MatchOption};
ghost use Rattle.threads_ports.specs.Numbers.{times, AreOneTo, EachOnce};

use crate::instances::{Seat, Table};
use crate::senders::Run;
use std::marker::{Model, PhantomData};

/// The table of the run `J`, from which all threads draw the numbers of its instances, each number once.
#[derive(Drop)]
pub struct Numbers<J: Run> {
    table: Table,
    of: PhantomData<J>,
    ghost named: { table.id ≡ J.table },
}

impl<J: Run> Numbers<J> {
    /// The table of the run. That it is the one that the run names is the caller's condition.
    pub fn new(table: Table) -> Self
        requires { table.id ≡ J.table }
    {
        Numbers {
            table,
            of: PhantomData,
        }
    }
}

/// The seat with which a thread draws the numbers of the run `J`. It is of the run's table, so its calls ask for nothing.
#[derive(Drop)]
pub struct NumberSeat<J: Run> {
    seat: Seat,
    of: PhantomData<J>,
}

impl<J: Run> Model for NumberSeat<J> {
    ghost use Rattle.std.specs.Prelude.{◌≡◌};
    ghost use Rattle.threads_ports.specs.Ends.{SeatState};

    ghost Value = { SeatState };

    ghost view = { λ s. s.seat };

    ghost invariant = { λ s. s.seat.table ≡ J.table };
}

impl<J: Run> NumberSeat<J> {
    /// A seat of the run's table. That it is of that table is the caller's condition.
    pub fn new(seat: Seat) -> Self
        requires { seat.table ≡ J.table }
        ensures { result ≡ seat }
    {
        NumberSeat {
            seat,
            of: PhantomData,
        }
    }

    /// The next number: 1, 2, .. 1,000, each once over all seats of the run. None: all are drawn, and this seat has seen
    /// that.
    pub fn draw(&mut self, numbers: &Numbers<J>) -> Option<u32>
        ensures within { IfSome result (λ number. (0 < number) × (number ≤ 1000)) }
        ensures seen { IfSome result (λ number. (self.old.seen < number) × (self.new.seen ≡ number)) }
        ensures drawn { IfSome result (λ number.
            (self.new.drawn ≡ self.old.drawn ++ number ∷ []) × (times number self.old.drawn ≡ 0)) }
        ensures full { MatchOption result ((self.new.seen ≡ 1000) × (self.new.drawn ≡ self.old.drawn))
            (λ _. Unit {0}) }
        ensures rights { (self.new.parts ≡ self.old.parts) × (self.new.left ≡ self.old.left) }
        ensures once { EachOnce self.new.drawn }
        ensures whole { self.new.parts ≡ 64 → AreOneTo self.new.seen self.new.drawn }
    {
        match numbers.table.draw(&mut self.seat) {
            Ok(number) => Some(number),
            Err(_) => None,
        }
    }

    /// A seat for another thread, which has drawn nothing and has seen as many numbers drawn: 63 times for the first seat
    /// of a table, None from then on and for all others.
    pub fn again(&mut self, numbers: &Numbers<J>) -> Option<Self>
        ensures same { (self.new.drawn ≡ self.old.drawn) × (self.new.seen ≡ self.old.seen) }
        ensures rights { MatchOption result ((self.old.left ≡ 0) × (self.new ≡ self.old))
            (λ _. (self.old.left ≡ self.new.left + 1) × (self.old.parts ≡ self.new.parts + 1)) }
        ensures seat { IfSome result (λ seat.
            (seat.parts ≡ 1) × (seat.left ≡ 0) × (seat.drawn ≡ []) × (seat.seen ≡ self.old.seen)) }
    {
        let seat = self.seat.again(&numbers.table)?;
        Some(NumberSeat::new(seat))
    }

    /// Takes a seat back, with all that it drew: no number was drawn by both.
    pub fn gather(&mut self, numbers: &Numbers<J>, seat: Self)
        ensures rights { (self.new.parts ≡ self.old.parts + seat.parts) × (self.new.left ≡ self.old.left) }
        ensures drawn { self.new.drawn ≡ self.old.drawn ++ seat.drawn }
        ensures seen { (self.old.seen ≤ self.new.seen) × (seat.seen ≤ self.new.seen) × (self.new.seen ≤ 1000) }
        ensures once { EachOnce self.new.drawn }
        ensures whole { self.new.parts ≡ 64 → AreOneTo self.new.seen self.new.drawn }
    {
        let NumberSeat { seat, .. } = seat;
        self.seat.gather(&numbers.table, seat);
    }
}
