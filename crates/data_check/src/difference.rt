//! Where a file differs.

/// A file that isn't as the run writes it: its node, and its group, which is 0 for the rows of a statistics node.
#[derive(Clone, Copy, Debug, PartialEq, Eq)]
pub struct Difference {
    pub node: u32,
    pub group: u32,
}
