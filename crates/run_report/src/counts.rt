//! What a report says.

use nd_base::Seq;

/// What a report says of a node.
#[derive(Clone, Copy, Debug, PartialEq, Eq)]
pub struct NodeCount {
    /// The arrays that came to the node: those that its queue took, and those that found it full.
    pub offered: u64,
    /// The arrays that were offered and not dropped; 0 where more were dropped.
    pub accepted: u64,
    /// The arrays that found the node's queue full.
    pub full: u64,
    /// The jobs for whose result the pool refused a block.
    pub pool: u64,
    /// The results that found the node's sort list full.
    pub sort: u64,
    /// The arrays that the node passed on; at a file node those that it saved for good.
    pub out: u64,
    /// Those of `out` whose id is neither that of the one before nor the next.
    pub breaks: u64,
}

/// What a report says of a run.
#[derive(Debug, Drop)]
pub struct Counters {
    /// The frames of the stack.
    pub frames: u64,
    /// The frames that were loaded or refused.
    pub offered: u64,
    /// The frames that were loaded for good.
    pub loaded: u64,
    /// The frames for which the pool refused a block.
    pub refused: u64,
    /// The frames that the driver emitted whose id is neither that of the one before nor the next.
    pub breaks: u64,
    /// The grants of a block whose storage had to be made again.
    pub regrown: u64,
    /// The counts of each node, in the graph's order.
    pub nodes: Seq<NodeCount>,
}
