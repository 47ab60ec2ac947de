//! A signal that the environment sends.

use port_model::Item;
use sdl_system::Target;

/// A signal that the environment sends: when, in ticks, with its values, and whom it reaches.
#[derive(Clone, Copy)]
pub struct Sending<'s> {
    pub at: u64,
    pub item: &'s Item,
    pub target: Target,
    /// Whether the target is an instance that lives then.
    pub arrives: bool,
    /// How many events of the timeline are told before.
    pub place: usize,
}
