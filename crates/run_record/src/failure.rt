//! What fails an instance.

use std::fmt;

/// The cause for which an instance fails.
#[derive(Clone, Copy, PartialEq, Eq)]
pub enum Failure {
    /// A number past 64 bits signed.
    Overflow,
    /// `/`, `mod` or `rem` by zero.
    ZeroDivisor,
    /// A variable that was never assigned.
    Undefined,
    /// A negative value for a variable or a parameter of the sort Natural.
    NotNatural,
    /// A decision none of whose answers is met, without an else part.
    NoAnswer,
    /// The 10,001st statement of a transition.
    TooLong,
    /// A growth that was refused.
    Memory,
    /// A set where the sets of the port are spent.
    SetsSpent,
}

impl fmt::Display for Failure {
    ghost use Rattle.std.specs.Prelude.{Some};
    ghost use Rattle.run_record.specs.Failure.{failure_text};

    ghost output = { λ failure. Some (failure_text failure) };

    fn fmt<W: fmt::Write>(&self, f: &mut fmt::Formatter<W>) -> fmt::Result {
        match self {
            Failure::Overflow => write!(f, "Overflow"),
            Failure::ZeroDivisor => write!(f, "ZeroDivisor"),
            Failure::Undefined => write!(f, "Undefined"),
            Failure::NotNatural => write!(f, "NotNatural"),
            Failure::NoAnswer => write!(f, "NoAnswer"),
            Failure::TooLong => write!(f, "TooLong"),
            Failure::Memory => write!(f, "Memory"),
            Failure::SetsSpent => write!(f, "SetsSpent"),
        }
    }
}

impl From<sdl_system::Failure> for Failure {
    ghost use Rattle.std.specs.Prelude.{◌≡◌};
    ghost use Rattle.run_record.specs.Failure.{failure_of};

    ghost from_gives = { λ failure own. own ≡ failure_of failure };

    fn from(failure: sdl_system::Failure) -> Failure {
        match failure {
            sdl_system::Failure::Overflow => Failure::Overflow,
            sdl_system::Failure::ZeroDivisor => Failure::ZeroDivisor,
        }
    }
}
