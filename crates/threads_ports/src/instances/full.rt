//! The one reason why no number is drawn.

use thiserror::Error;

/// All 1,000 numbers are drawn.
#[derive(Clone, Copy, Debug, PartialEq, Eq, Error)]
#[error("all numbers are drawn")]
pub struct Full;
