//! Why nothing is held.

/// Why what a source has could not be held.
#[derive(Clone, Copy, PartialEq, Eq)]
pub enum ReadFault {
    /// A reader answered an error, or was read too often.
    Read,
    /// The bytes could not be held.
    Memory,
}
