//! The rule of a clock, and what each atomic step on its word tells.
use atomic_table::{Play, Seat, Split, Table, TableRule};
use port_model::Ticks;
use std::alloc::Global;

/// The knowledge of a seat at the clock's word. No value of it is made.
pub struct Hand {
    /// It is the ticker's, which alone moves the clock.
    pub ticks: bool,
    /// The greatest time that it has seen; the ticker's is the time.
    pub seen: Ticks,
}

/// One word, which never goes down.
pub struct Rising;

impl TableRule<(), Hand, ()> for Rising {
    ghost use Rattle.sdl_timers.specs.Clock.{hand, IsTime};
    ghost use Rattle.std.specs.Prelude.{true};

    ghost holds = { λ _. IsTime };

    ghost first = { λ _. hand true 0 };
}

/// A load by a reader.
pub struct Load;

impl Play<(), Hand> for Load {
    ghost use Rattle.sdl_timers.specs.Clock.{Looks};

    ghost then = { λ _. Looks };
}

/// A maximum with the word by the ticker.
pub struct Raise;

impl Play<(), Hand> for Raise {
    ghost use Rattle.sdl_timers.specs.Clock.{Raises};

    ghost then = { λ s. Raises s.first };
}

/// A new reader, which has seen what the seat has.
pub struct NewReader;

impl Split<Hand> for NewReader {
    ghost use Rattle.std.specs.Prelude.{false};
    ghost use Rattle.sdl_timers.specs.Clock.{hand};

    ghost left = { λ v. v };

    ghost right = { λ v. hand false v.seen };
}

pub type Word = Table<(), Hand, (), Rising, Global>;

pub type Place = Seat<(), Hand>;
