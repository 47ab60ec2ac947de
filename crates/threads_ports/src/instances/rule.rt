//! The rule of the numbers, and what each atomic step tells.
ghost use Rattle.std.specs.Prelude.{◌≡◌};

use atomic_table::{Join, Play, Split, TableRule};
use std::alloc::Global;
use std::collections::LinkedList;

/// The rights of a seat, and what it knows. No value of it is made.
pub struct View {
    /// Of the right to draw, which has 64 parts.
    pub parts: u64,
    /// The numbers that it has drawn.
    pub drawn: LinkedList<u32>,
    /// How many numbers it has seen drawn, by whatever seat.
    pub seen: u32,
}

pub struct EachOnce;

impl TableRule<(), View, ()> for EachOnce {
    ghost use Rattle.threads_ports.specs.Rule.{Kept};
    ghost use Rattle.threads_ports.specs.Views.{whole};

    ghost holds = { λ _. Kept };

    ghost first = { λ _. whole };
}

/// A new seat, with one part of another's right.
pub struct OnePart;

impl Split<View> for OnePart {
    ghost use Rattle.threads_ports.specs.Views.{one_part, without_part};

    ghost left = { without_part };

    ghost right = { one_part };
}

/// A seat goes to another one, with its parts and all that it drew.
pub struct Gathers;

impl Join<View> for Gathers {
    ghost use Rattle.threads_ports.specs.Views.{spent, together};

    ghost both = { together };

    ghost spent = { spent };
}

/// One more draw.
pub struct Drawn;

impl Play<(), View> for Drawn {
    ghost use Rattle.threads_ports.specs.Steps.{Draws};

    ghost then = { λ _ v n w. Draws v.0 n w.0 × (w.1 ≡ v.1) };
}

/// A look at the count.
pub struct Looked;

impl Play<(), View> for Looked {
    ghost use Rattle.threads_ports.specs.Steps.{Looks};

    ghost then = { λ _ v n w. Looks v.0 n w.0 × (w.1 ≡ v.1) };
}

pub type Word = atomic_table::Table<(), View, (), EachOnce, Global>;

pub type Place = atomic_table::Seat<(), View>;
