//! What a process has besides its states and transitions.

use sdl_system::{SignalSet, Variable};

/// The heading of a process, with its variables and its valid input set.
#[derive(Drop)]
pub struct Heading {
    pub name: String,
    /// How many instances there are at the start.
    pub initial: u32,
    /// How many there may be at most; None: any number.
    pub maximum: Option<u32>,
    /// How many of the variables are formal parameters: the first ones.
    pub parameters: u32,
    pub variables: Vec<Variable>,
    /// The valid input set.
    pub valid: SignalSet,
}
