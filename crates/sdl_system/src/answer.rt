//! The answers of a decision (Z.102: decision).

ghost use Rattle.std.specs.Prelude.{◌≡◌};
ghost use Rattle.sdl_system.specs.Answer.{is_met};

use crate::operation::{Comparison, compare};
use port_model::Value;

/// An answer of a decision: the values with which the value of the question is compared.
#[derive(Clone, Copy, PartialEq, Eq)]
pub enum Answer {
    /// The value itself.
    Value(Value),
    /// The values from the first to the last, both among them.
    Range {
        first: Value,
        last: Value,
    },
    /// The values that stand in this order to the given one.
    Compared {
        comparison: Comparison,
        value: Value,
    },
}

impl Answer {
    /// Whether the value of the question meets the answer.
    pub fn is_met(&self, value: Value) -> bool
        ensures { result ≡ is_met self.now value }
    {
        match self {
            Answer::Value(expected) => compare(Comparison::Equal, value, *expected),
            Answer::Range { first, last } => {
                compare(Comparison::LessOrEqual, *first, value)
                    && compare(Comparison::LessOrEqual, value, *last)
            }
            Answer::Compared {
                comparison,
                value: expected,
            } => compare(*comparison, value, *expected),
        }
    }
}
