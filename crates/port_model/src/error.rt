//! Why a port refuses a call.

use thiserror::Error;

/// Why a port refused a call.
#[derive(Clone, Copy, Debug, PartialEq, Eq, Error)]
pub enum PortError {
    #[error("the port has given out all its senders")]
    TooManySenders,
    #[error("the port has counted all the sets that it can")]
    SetsSpent,
    #[error("out of memory")]
    Memory,
}
