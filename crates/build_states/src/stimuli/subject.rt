//! Of what a state speaks.

use port_model::SignalId;

/// Of what a state speaks.
#[derive(Clone, Copy, PartialEq, Eq, Hash)]
pub enum Subject {
    /// A signal or a timer, by its name.
    Signal(SignalId),
    /// All of the valid input set that the state doesn't name: `*`.
    Rest,
}
