//! What was sent, as a list that only proofs read. It takes no memory, and its calls do nothing at run time.

ghost use Rattle.std.specs.Prelude.{◌≡◌, List, [], ◌∷◌, ◌++◌};
ghost use Rattle.std.specs.Borrow.{ftrue};

use std::marker::{Model, PhantomData};

/// The list of what was sent, in order: each time to whom, and what. A clause reads it as `items`.
#[derive(Drop)]
pub struct SentList<A, B> {
    of: PhantomData<(A, B)>,
    pub ghost items: { List (A × B) },
}

impl<A, B> Model for SentList<A, B> {
    ghost also_owns = { λ _. ftrue };
}

// It owns nothing.
unsafe impl<A: Send, B: Send> Send for SentList<A, B> {}

impl<A, B> SentList<A, B> {
    /// Nothing was sent.
    pub fn new() -> SentList<A, B>
        ensures { result.items ≡ [] }
    {
        SentList { of: PhantomData }
    }

    /// The same, and then this to whom it was sent.
    pub fn and(&self, to: &A, what: &B) -> SentList<A, B>
        ensures { result.items ≡ self.now.items ++ (to.now, what.now) ∷ [] }
    {
        SentList { of: PhantomData }
    }
}
