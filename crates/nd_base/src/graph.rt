//! The plugin graph: its nodes, their kinds and their rules.

ghost use Rattle.std.specs.Prelude.{◌≡◌, option_copied};
ghost use Rattle.nd_base.specs.GraphRules.{rule_at};

use crate::{Calc, Form, Name, SampleType, Seq};

/// A sign between two parts of an expression.
#[derive(Clone, Copy, Debug, PartialEq, Eq)]
pub enum Sign {
    Or,
    And,
    Equal,
    NotEqual,
    Below,
    AtMost,
    Above,
    AtLeast,
    Plus,
    Minus,
    Times,
}

/// What a region node cuts out. Each list has one value a dimension, from dimension 0 on; a list may be
/// shorter or longer than the array has dimensions.
#[derive(Debug, Drop)]
pub struct RoiRule {
    pub min: Seq<i32>,
    pub size: Seq<i32>,
    pub bin: Seq<i32>,
    pub reverse: Seq<bool>,
    pub auto: Seq<bool>,
    /// What each sum is divided by.
    pub scale: u32,
    /// The output's sample type; None is the input's.
    pub out: Option<SampleType>,
}

/// What a statistics node measures. `hist_size` 0 is no histogram.
#[derive(Debug, Drop)]
pub struct StatsRule {
    pub threshold: i64,
    pub border: u32,
    pub hist_size: u32,
    pub hist_lo: i64,
    pub hist_hi: i64,
    pub profiles: bool,
}

/// Which arrays a circular node passes on: `pre` before each trigger and `post` from it on; `preset` 0 is
/// no end. The empty name names no attribute.
#[derive(Debug, Drop)]
pub struct CircularRule {
    pub pre: u32,
    pub post: u32,
    pub preset: u32,
    pub trigger: Calc,
    pub a: Name,
    pub b: Name,
}

/// How a file node groups its arrays into files.
#[derive(Clone, Copy, Debug, PartialEq, Eq)]
pub enum Mode {
    /// One array a file.
    Single,
    /// A group is written once it is whole.
    Capture,
    /// A group is written array by array.
    Stream,
}

/// What a file node writes: `count` arrays a file, in this form.
#[derive(Debug, Drop)]
pub struct FileRule {
    pub mode: Mode,
    pub count: u32,
    pub form: Form,
}

/// What a node does.
#[derive(Debug, Drop)]
pub enum Kind {
    Roi(RoiRule),
    Stats(StatsRule),
    Circular(CircularRule),
    File(FileRule),
    /// Each array goes to one child in turn.
    Scatter,
}

impl Kind {
    ghost use Rattle.nd_base.specs.GraphRules.{may_feed, is_parallel, makes_arrays};

    /// Whether a node of this kind may have children.
    pub fn may_feed(&self) -> bool
        ensures { result ≡ may_feed self.now }
    {
        match self {
            Kind::Roi(_) | Kind::Stats(_) | Kind::Circular(_) | Kind::Scatter => true,
            Kind::File(_) => false,
        }
    }

    /// Whether a node of this kind may have several threads, and a sort list.
    pub fn is_parallel(&self) -> bool
        ensures { result ≡ is_parallel self.now }
    {
        match self {
            Kind::Roi(_) | Kind::Stats(_) => true,
            Kind::Circular(_) | Kind::File(_) | Kind::Scatter => false,
        }
    }

    /// Whether a node of this kind makes arrays of its own.
    pub fn makes_arrays(&self) -> bool
        ensures { result ≡ makes_arrays self.now }
    {
        match self {
            Kind::Roi(_) => true,
            Kind::Stats(_) | Kind::Circular(_) | Kind::File(_) | Kind::Scatter => false,
        }
    }
}

/// A node. `input` is 0 for the driver, or the number of a node from 1; `sort` is the size of the sort
/// list, where 0 is no sorting; `sort_time` is in ticks.
#[derive(Debug, Drop)]
pub struct NodeRule {
    pub name: Name,
    pub kind: Kind,
    pub input: u32,
    pub queue: u32,
    pub threads: u32,
    pub sort: u32,
    pub sort_time: u64,
}

/// A plugin graph. `wait` is whether the feed waits for the driver's children; `limit` is the pool's limit
/// in bytes, where 0 is none. The nodes are numbered from 1 in their order.
#[derive(Debug, Drop)]
pub struct Graph {
    pub wait: bool,
    pub limit: u64,
    pub nodes: Seq<NodeRule>,
}

/// The rule of a node; the driver, which is 0, has none.
pub fn rule_at(nodes: &[NodeRule], node: u32) -> Option<&NodeRule>
    ensures { option_copied result ≡ rule_at nodes.now node }
{
    let place = (node as usize).checked_sub(1)?;
    nodes.get(place)
}
