//! Who hears how far a run is while it goes on.

use port_model::Ticks;

/// A listener. Nothing of a run depends on it.
pub trait Listener: Drop {
    /// A transition is made, at this time of the clock.
    fn transition(&mut self, at: Ticks);

    /// No more of them are made.
    fn end(&mut self);
}

/// Nobody listens.
#[derive(Drop)]
pub struct Nobody;

impl Listener for Nobody {
    fn transition(&mut self, _at: Ticks) {}

    fn end(&mut self) {}
}
