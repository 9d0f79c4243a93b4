//! What a request is answered.

use thiserror::Error;

/// A block that was granted.
#[derive(Clone, Copy, Debug, PartialEq, Eq)]
pub struct Grant {
    /// The block's number.
    pub block: u32,
    /// The block's size in bytes, at least the bytes that were asked for.
    pub size: u32,
    /// Whether the block is a new one.
    pub fresh: bool,
    /// How many free blocks were given up for it.
    pub given_up: u32,
}

/// The request would pass the limit.
#[derive(Clone, Copy, Debug, PartialEq, Eq, Error)]
#[error("the pool holds {held} bytes")]
pub struct Refused {
    /// The bytes of all blocks that have a hold.
    pub held: u64,
}
