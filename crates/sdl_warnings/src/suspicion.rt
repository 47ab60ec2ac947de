//! What may not be meant so.

use sdl_lex::Place;

/// What may not be meant so.
#[derive(Clone, Copy, PartialEq, Eq)]
pub enum Suspicion {
    /// No `nextstate` of its process names the state.
    UnreachedState,
    UnusedSignal,
    UnusedSignalList,
    UnusedSynonym,
    UnusedVariable,
    UnusedTimer,
    /// The variable is used, and nobody gives it a first value.
    UnsetVariable,
    /// No `join` of its process names the label.
    UnusedLabel,
    /// A timer is set to a time that is always the same.
    ConstantTime,
    /// It is about what processes do.
    Behaviour(Behaviour),
}

/// What may not be meant so in what processes do.
#[derive(Clone, Copy, PartialEq, Eq)]
pub enum Behaviour {
    /// Some output sends the signal, and nobody takes it.
    UnheardSignal,
    /// Some input takes the signal, and nobody sends it.
    UnsentSignal,
    /// A `join` leads back, and nothing leads out.
    EndlessLoop,
    /// An answer has a value that an earlier one of the decision has.
    Overlap,
    /// The first value of a range is greater than the last.
    EmptyRange,
    /// A decision has an answer for one Boolean value, and none for the other.
    MissingAnswer,
}

/// What may not be meant so, and where it is.
#[derive(Clone, Copy, PartialEq, Eq)]
pub struct Warning {
    pub suspicion: Suspicion,
    pub place: Place,
}

/// What may not be meant so in what processes do, and where it is.
#[derive(Clone, Copy)]
pub struct Oddity {
    pub behaviour: Behaviour,
    pub place: Place,
}
