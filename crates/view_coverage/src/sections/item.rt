//! What there is to cover, with how often it was.

use sdl_lex::Place;

/// A process, and what there is to cover in it, in the order of the text.
#[derive(Drop)]
pub struct Section<'t> {
    pub process: &'t str,
    pub items: Vec<Item>,
}

/// One thing that there is to cover.
#[derive(Drop)]
pub struct Item {
    pub kind: Kind,
    /// Where it is in the text.
    pub place: Place,
    /// The same as a text.
    pub at: String,
    /// In which state, or of which decision.
    pub owner: String,
    /// What may happen there.
    pub what: String,
    /// How often it did.
    pub times: u64,
}

/// What it is.
#[derive(Clone, Copy, PartialEq, Eq)]
pub enum Kind {
    State,
    /// Something for which a state waits.
    Stimulus(Branch),
    /// A part of a decision.
    Answer(Branch),
}

/// One of the ways from a place.
#[derive(Clone, Copy, PartialEq, Eq)]
pub struct Branch {
    /// Where what the state waits for is named, or where the decision is.
    pub place: Place,
    /// The number of the state in its process, or of the part in its decision.
    pub number: u32,
}

/// Whether it is known how often the parts of decisions were passed.
#[derive(Clone, Copy, PartialEq, Eq)]
pub enum Knowledge {
    Known,
    /// The run was one with workers: another one may go another way.
    NotOfThreads,
    /// A run that counts the parts is not the same, except for the counting.
    OtherRun,
}
