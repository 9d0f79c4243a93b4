//! The plan of a run: its graph and what each frame takes.

use crate::{Dim, Graph, SampleType, Seq};

/// A node that makes arrays; the driver is node 0. `need` is the bytes of one array.
#[derive(Debug, Drop)]
pub struct Maker {
    pub node: u32,
    pub kind: SampleType,
    pub dims: Seq<Dim>,
    pub need: u32,
}

/// A graph with the ids of the stack's frames and the makers: the driver first, then the region nodes in
/// the graph's order.
#[derive(Debug, Drop)]
pub struct Plan {
    pub graph: Graph,
    pub ids: Seq<i32>,
    pub makers: Seq<Maker>,
}
