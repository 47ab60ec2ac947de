//! What an instance may find to do next.

/// What the next step of an instance may find, as a look at its port tells it. If something comes into the port from a
/// queue that threads share, the look may be late.
#[derive(Clone, Copy, PartialEq, Eq)]
pub enum Ahead {
    /// Nothing: the instance is at rest, and so it stays until something comes.
    Nothing,
    /// Something waits in the port, which may all be saved.
    Signals,
    /// The step alone tells. It is the start, or the instance has ended, or nothing waits: then a continuous signal may be
    /// true, or a condition may fail.
    Perhaps,
}
