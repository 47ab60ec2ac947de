//! Places in the grammar.

/// A place in the grammar: all that the reading of an item depends on besides the words.
#[derive(Clone, Copy)]
pub struct At {
    /// How many parentheses and decisions may stand inside each other.
    pub depth: usize,
    /// The looseness of the weakest operators that may stand in an expression.
    pub loose: usize,
}

/// How many parentheses and decisions may stand inside each other, which bounds the stack.
pub const LIMIT: usize = 64;

/// The looseness of the weakest operators. A primary has 0, and a unary operator 1.
pub const LOOSEST: usize = 7;

impl At {
    /// Inside nothing.
    pub const OUTERMOST: At = At {
        depth: LIMIT,
        loose: LOOSEST,
    };
}
