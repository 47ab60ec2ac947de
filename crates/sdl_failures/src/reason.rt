//! Why something fails, with the values that tell it.

use port_model::Value;
use sdl_lex::Place;
use sdl_system::Arithmetic;

/// What fails at a word, and why.
#[derive(Clone, Copy)]
pub struct Blame<'t> {
    pub place: Place,
    pub reason: Reason<'t>,
}

#[derive(Clone, Copy)]
pub enum Reason<'t> {
    /// The variable of this name has no value.
    NoValue(&'t str),
    /// An operation on two numbers that comes to one past 64 bits, or divides by zero.
    Calculation {
        left: Value,
        operation: Arithmetic,
        right: Value,
    },
    /// The number with the other sign.
    Negation(Value),
    /// The time so many ticks after this one.
    Later {
        now: u64,
        duration: i64,
    },
    /// The time itself.
    Time(u64),
    /// A value that is less than 0, for the variable of this name, or for a parameter.
    NotNatural {
        value: Value,
        variable: Option<&'t str>,
    },
    /// The value of a question that meets no answer.
    NoAnswer(Value),
    /// One statement too many.
    TooLong,
}
