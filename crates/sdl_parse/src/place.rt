//! Places in the definitions of a specification.

use parse_expressions::place::LIMIT;

/// A place in a definition, inside of no parentheses and no decision.
#[derive(Clone, Copy)]
pub struct Defining {
    /// How many parentheses and decisions may stand inside each other there.
    pub depth: usize,
}

impl Defining {
    /// Inside nothing.
    pub const OUTERMOST: Defining = Defining { depth: LIMIT };
}
