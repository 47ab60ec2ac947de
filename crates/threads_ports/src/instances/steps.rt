//! The atomic steps of the numbers. Each changes what the calling seat knows and nothing else, and keeps the rule of
//! `specs/Rule.antt`.
ghost use Rattle.std.specs.Prelude.{◌≡◌, ◌<◌, [], IfOk};
ghost use Rattle.threads_ports.specs.Ends.{IsTable};
ghost use Rattle.threads_ports.specs.Steps.{Draws, Looks};
ghost use Rattle.threads_ports.specs.Views.{one_part, together, whole, without_part};

use crate::instances::rule::{Drawn, Gathers, Looked, OnePart, Place, Word};
use std::alloc::{AllocError, Global};

/// A count of no draws, and the first seat.
pub fn open(alloc: Global) -> Result<(Word, Place), AllocError>
    ensures table { IfOk result (λ made. IsTable made.0.shared.table_id × (made.1.table_id ≡ made.0.shared.table_id)) }
    ensures seat { IfOk result (λ made. made.1.me ≡ (whole, [])) }
{
    Word::of_words(alloc, &[0], &())
}

/// Addition of one, which is a draw. Before: the seat has a part of the right, and hasn't seen all numbers drawn.
/// After: it has drawn the next number, or, where none was left, has seen that all are drawn.
pub fn add(word: &Word, place: &mut Place) -> u64
    requires table { IsTable word.now.shared.table_id × (place.old.table_id ≡ word.now.shared.table_id) }
    requires rights { (0 < place.old.me.0.parts) × (place.old.me.0.seen < 1000) }
    ensures table { place.new.table_id ≡ place.old.table_id }
    ensures empty { place.new.me.1 ≡ place.old.me.1 }
    ensures drawn { Draws place.old.me.0 result place.new.me.0 }
{
    word.shared.fetch_add::<Drawn>(place, 0, 1)
}

/// Load. After: the seat has seen how many numbers are drawn, and knows that it has drawn none of them twice.
pub fn look(word: &Word, place: &mut Place) -> u64
    requires { IsTable word.now.shared.table_id × (place.old.table_id ≡ word.now.shared.table_id) }
    ensures table { place.new.table_id ≡ place.old.table_id }
    ensures empty { place.new.me.1 ≡ place.old.me.1 }
    ensures seen { Looks place.old.me.0 result place.new.me.0 }
{
    word.shared.load::<Looked>(place, 0)
}

/// Split of a seat. Before: it has two parts or more. After: the new seat has one of them, has drawn nothing, and has
/// seen as much.
#[tactic(auto, using(crate::proofs::Moves::splits))]
pub fn split(word: &Word, place: &mut Place) -> Place
    requires table { IsTable word.now.shared.table_id × (place.old.table_id ≡ word.now.shared.table_id) }
    requires rights { 1 < place.old.me.0.parts }
    ensures table { (place.new.table_id ≡ place.old.table_id) × (result.table_id ≡ place.old.table_id) }
    ensures seat { place.new.me ≡ (without_part place.old.me.0, place.old.me.1) }
    ensures new { result.me ≡ (one_part place.old.me.0, []) }
{
    word.shared.split_seat::<OnePart>(place)
}

/// Taking a seat back. After: the seat has the parts of both, all that both have drawn, and has seen what either has;
/// the other is spent.
#[tactic(auto, using(crate::proofs::Moves::joins))]
pub fn take_back(word: &Word, place: &mut Place, other: Place)
    requires table { IsTable word.now.shared.table_id × (place.old.table_id ≡ word.now.shared.table_id)
        × (other.table_id ≡ word.now.shared.table_id) }
    requires empty { other.me.1 ≡ [] }
    ensures table { place.new.table_id ≡ place.old.table_id }
    ensures seat { place.new.me ≡ (together place.old.me.0 other.me.0, place.old.me.1) }
{
    word.shared.join_seat::<Gathers>(place, other);
}
