//! What hears of each step before it is made.

use std::sync::Wait;

/// A gate. It hears of each step that a worker makes, before it is made. It may wait, so a test can hold a step back
/// until another one begins.
pub trait Gate {
    /// A step of the instance of this number is about to be made.
    fn begun<R: Wait>(&self, rt: &R, number: u32);
}

/// A gate that does nothing.
#[derive(Clone, Copy, Drop)]
pub struct Open;

impl Gate for Open {
    fn begun<R: Wait>(&self, _rt: &R, _number: u32) {}
}
