//! What steps in a slot, as far as its state asks.

/// What steps in a slot. Its ticket goes back only if it has nothing to do, or has ended.
pub trait Rests {
    /// It has nothing to do, as far as it has looked.
    ghost at_rest: { Self → Type 0 };

    /// It makes no step any more.
    ghost ended: { Self → Type 0 };
}

impl<T: Rests> Rests for Box<T> {
    ghost at_rest = { λ boxed. T.at_rest boxed.value };

    ghost ended = { λ boxed. T.ended boxed.value };
}
