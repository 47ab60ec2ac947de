//! What moves a clock on.

ghost use Rattle.std.specs.Prelude.{◌≡◌, max, IfOk};

use crate::reader::Reader;
use crate::rule::{NewReader, Place, Raise, Word};
use port_model::Ticks;
use std::alloc::{AllocError, Global};
use std::marker::Model;
use std::sync::Arc;

/// The ticker that moves a clock on. A clock has one, and the ticker's value is the clock's time.
#[derive(Drop)]
pub struct Ticker {
    word: Arc<Word, Global>,
    seat: Place,
}

impl Model for Ticker {
    ghost use Rattle.std.specs.Prelude.{◌≡◌, ℕ, true};
    ghost use Rattle.std.specs.Arc.{arc_value};
    ghost use Rattle.sdl_timers.specs.Clock.{IsSeated};

    ghost Value = { ℕ };

    ghost view = { λ t. t.seat.me.0.seen };

    ghost invariant = { λ t. IsSeated (arc_value t.word).shared.table_id t.seat × (t.seat.me.0.ticks ≡ true) };
}

/// A clock, as it is made: its ticker, and its first reader. It is a struct, so that the two are told apart by name,
/// and not by their order.
#[derive(Drop)]
pub struct NewClock {
    pub ticker: Ticker,
    pub reader: Reader,
}

/// A clock at time 0. Refused for lack of memory.
pub fn clock(alloc: Global) -> Result<NewClock, AllocError>
    ensures ticker { IfOk result (λ made. made.ticker ≡ 0) }
    ensures reader { IfOk result (λ made. made.reader ≡ 0) }
{
    let (table, seat) = Word::of_words(alloc, &[0], &())?;
    let word = Arc::new(alloc, table)?;
    let mut ticker = Ticker { word, seat };
    let reader = ticker.reader()?;
    Ok(NewClock { ticker, reader })
}

impl Ticker {
    /// Moves the clock on to the time `to`. A time that is past already changes nothing. Takes no memory.
    pub fn advance(&mut self, to: Ticks)
        ensures { self.new ≡ max self.old to }
    {
        // Before: the word is what the ticker has seen. After: it is the greater of that and `to`, and the ticker has
        // seen it.
        self.word
            .shared
            .fetch_max::<Raise>(&mut self.seat, 0, to.get());
    }

    /// A reader that has seen the clock's time. Refused for lack of memory; the clock is as it was.
    #[tactic(auto, using(crate::proofs::Steps::splits))]
    pub fn reader(&mut self) -> Result<Reader, AllocError>
        ensures time { self.new ≡ self.old }
        ensures reader { IfOk result (λ reader. reader ≡ self.old) }
    {
        let word = Arc::try_clone(&self.word)?;
        let seat = self.word.shared.split_seat::<NewReader>(&mut self.seat);
        Ok(Reader::new(word, seat))
    }
}
