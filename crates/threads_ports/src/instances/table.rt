//! The table from which numbers are drawn.

ghost use Rattle.std.specs.Prelude.{◌≡◌, ◌<◌, ◌≤◌, [], ◌∷◌, ◌++◌, IfOk, OnErr};
ghost use Rattle.threads_ports.specs.Ends.{IsTable};
ghost use Rattle.threads_ports.specs.Numbers.{times, EachOnce, AreOneTo};

use crate::instances::rule::Word;
use crate::instances::{Full, Seat, steps};
use std::marker::Model;

/// How many numbers there are: as many as there may be instances in a run.
pub(crate) const MOST_NUMBERS: u32 = 1000;

/// The numbers of a run's instances, which all threads share by `&`.
#[derive(Drop)]
pub struct Table {
    word: Word,
}

impl Model for Table {
    ghost use Rattle.threads_ports.specs.Ends.{TableState, IsTable};

    ghost Value = { TableState };

    ghost view = { λ table. record { id = table.word.shared.table_id } };

    ghost invariant = { λ table. IsTable table.word.shared.table_id };
}

impl Table {
    pub(crate) fn new(word: Word) -> Self
        requires { IsTable word.shared.table_id }
        ensures { result ≡ record { id = word.shared.table_id } }
    {
        Table { word }
    }

    pub(crate) fn word(&self) -> &Word
        ensures { (result.now.shared.table_id ≡ self.now.id) × IsTable self.now.id }
    {
        &self.word
    }

    /// Draws the next number: 1, 2, .. 1,000, each once over all seats of the table. `Full` comes only where all of
    /// them are drawn; the seat has seen that then, and draws no more. That the table is the seat's is the caller's
    /// condition.
    pub fn draw(&self, seat: &mut Seat) -> Result<u32, Full>
        requires { seat.old.table ≡ self.now.id }
        ensures table { seat.new.table ≡ seat.old.table }
        ensures rights { (seat.new.parts ≡ seat.old.parts) × (seat.new.left ≡ seat.old.left) }
        ensures number { IfOk result (λ n. (seat.old.seen < n) × (n ≤ 1000) × (seat.new.seen ≡ n)) }
        ensures drawn { IfOk result (λ n. (seat.new.drawn ≡ seat.old.drawn ++ n ∷ []) × (times n seat.old.drawn ≡ 0)) }
        ensures full { OnErr result ((seat.new.seen ≡ 1000) × (seat.new.drawn ≡ seat.old.drawn)) }
        ensures once { EachOnce seat.new.drawn }
        ensures whole { seat.new.parts ≡ 64 → AreOneTo seat.new.seen seat.new.drawn }
    {
        if seat.is_full() {
            return Err(Full);
        }
        let before = steps::add(&self.word, &mut seat.place);
        if before >= u64::from(MOST_NUMBERS) {
            seat.seen = MOST_NUMBERS;
            return Err(Full);
        }
        let number = before as u32 + 1;
        seat.seen = number;
        Ok(number)
    }
}
