//! Places in the behaviour of a process.

/// A place in the behaviour of a process, inside of parentheses and decisions.
#[derive(Clone, Copy)]
pub struct Inside {
    /// How many parentheses and decisions may stand inside each other there.
    pub depth: usize,
}
