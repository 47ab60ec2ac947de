//! What is said if there was no memory.

/// The sentence for lack of memory.
pub const NO_MEMORY: &str =
    "There was no memory for this text. Make it shorter, or give the program more.";
