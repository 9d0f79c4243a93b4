//! The answer of a call that failed.

use thiserror::Error;

/// The one answer of a call that failed.
#[derive(Clone, Copy, Debug, PartialEq, Eq, Error)]
#[error("a read or a write failed")]
pub struct Failed;
