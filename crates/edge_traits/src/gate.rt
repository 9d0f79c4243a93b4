//! A gate on the way of a role.

/// Lets the roles of a run through, or holds one for a while, so that a test can say in which
/// order things happen. It means nothing: no contract knows of it.
pub trait Gate {
    /// Before a node's work on the frame of an index. The feeder's is work of node 0.
    fn before(&self, node: u32, index: u32);

    /// After that work.
    fn after(&self, node: u32, index: u32);

    /// Where a role found nothing to do.
    fn idle(&self);
}
