//! What reads a clock.

ghost use Rattle.std.specs.Prelude.{◌≡◌, ◌≤◌, false, IfOk};
ghost use Rattle.std.specs.Arc.{arc_value};

use crate::rule::{Load, NewReader, Place, Word};
use port_model::Ticks;
use std::alloc::{AllocError, Global};
use std::marker::Model;
use std::sync::Arc;

/// A reader of a clock, in any thread. Its value is the latest time that it has seen.
#[derive(Drop)]
pub struct Reader {
    word: Arc<Word, Global>,
    seat: Place,
}

impl Model for Reader {
    ghost use Rattle.std.specs.Prelude.{◌≡◌, ℕ, false};
    ghost use Rattle.std.specs.Arc.{arc_value};
    ghost use Rattle.sdl_timers.specs.Clock.{IsSeated};

    ghost Value = { ℕ };

    ghost view = { λ r. r.seat.me.0.seen };

    ghost invariant = { λ r. IsSeated (arc_value r.word).shared.table_id r.seat × (r.seat.me.0.ticks ≡ false) };
}

impl Reader {
    ghost use Rattle.sdl_timers.specs.Clock.{IsSeated};

    pub(crate) fn new(word: Arc<Word, Global>, seat: Place) -> Self
        requires seat { IsSeated (arc_value word).shared.table_id seat }
        requires reads { seat.me.0.ticks ≡ false }
        ensures { result ≡ seat.me.0.seen }
    {
        Reader { word, seat }
    }

    /// The clock's time, which is never before one that this reader has seen. Takes no memory.
    pub fn now(&mut self) -> Ticks
        ensures seen { result ≡ self.new }
        ensures later { self.old ≤ self.new }
    {
        // Before: the word is at least what this reader has seen. After: the reader has seen the word as it was.
        Ticks::new(self.word.shared.load::<Load>(&mut self.seat, 0))
    }

    /// One more reader, which has seen what this one has. Refused for lack of memory; this one is as it was.
    #[tactic(auto, using(crate::proofs::Steps::splits))]
    pub fn again(&mut self) -> Result<Reader, AllocError>
        ensures same { self.new ≡ self.old }
        ensures reader { IfOk result (λ reader. reader ≡ self.old) }
    {
        let word = Arc::try_clone(&self.word)?;
        let seat = self.word.shared.split_seat::<NewReader>(&mut self.seat);
        Ok(Reader::new(word, seat))
    }
}
