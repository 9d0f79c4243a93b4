//! The names of the kinds.

/// What a node's `kind` says.
#[derive(Clone, Copy, Debug, PartialEq, Eq)]
pub(crate) enum KindName {
    Roi,
    Stats,
    Circular,
    File,
    Scatter,
}
