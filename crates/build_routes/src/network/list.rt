//! Signal lists, and the signals that they stand for.

use port_model::SignalId;

/// A list of signals, counted from 0. Each place in the text that lists signals has a number: a `signallist`, what a
/// channel path carries, a `signalset`, and what a process inputs and saves.
#[derive(Clone, Copy, PartialEq, Eq, PartialOrd, Ord, Hash)]
pub struct ListId(pub u32);

/// An item of a list.
#[derive(Clone, Copy, PartialEq, Eq)]
pub enum Item {
    Signal(SignalId),
    /// The signals of another list, `(NAME)` in the text.
    List(ListId),
}

/// The items that are listed at one place.
#[derive(Drop)]
pub struct SignalList {
    pub items: Vec<Item>,
}
