//! What a refused call gives back.

use crate::error::PortError;

/// Why a call was refused, and what it was given, which comes back as it was or as the call says.
#[derive(PartialEq, Eq, Drop)]
pub struct Refused<T> {
    pub error: PortError,
    pub value: T,
}
