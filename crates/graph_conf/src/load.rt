//! The limits of a run.
ghost use Rattle.std.specs.Prelude.{◌≡◌, ◌≤◌, ◌<◌, ◌^◌, ◌*◌, length};
ghost use Rattle.nd_base.specs.GraphRules.{IsGraph};
ghost use Rattle.cdf_write.specs.Writable.{IsWritable};
ghost use Rattle.chain_plain.specs.Plans.{plan_of, shape_at};
ghost use Rattle.graph_conf.specs.Loads.{profile_lengths, kept_by, kept, file_bytes, most_bytes, first_too_long, limit_fault, answer};

use cdf_write::length_with;
use chain_plain::maker_for;
use nd_base::{Dim, FileShape, Graph, Kind, Maker, Plan, Stack};
use thiserror::Error;

/// The most frames times nodes.
const MOST_ARRIVALS: u64 = 1_048_576;

/// The most numbers that statistics nodes keep.
const MOST_KEPT: u64 = 67_108_864;

/// A limit that is passed, and the number that passes it. `node` is the number of a node from 1.
#[derive(Clone, Copy, Debug, PartialEq, Eq, Error)]
pub enum LimitFault {
    /// A graph's file of more than 1,048,576 bytes.
    #[error("the graph's file has {bytes} bytes")]
    GraphBytes { bytes: u64 },
    /// A stack's file of more than 1,073,741,824 bytes.
    #[error("the stack's file has {bytes} bytes")]
    StackFile { bytes: u64 },
    /// Samples of a made stack of more than 536,870,912 bytes.
    #[error("the samples of the made stack have {bytes} bytes")]
    GenBytes { bytes: u64 },
    /// More than 1,048,576 frames times nodes.
    #[error("{arrivals} arrivals")]
    Load { arrivals: u64 },
    /// More than 67,108,864 numbers that statistics nodes keep.
    #[error("{numbers} numbers are kept")]
    Kept { numbers: u64 },
    /// A file of more than 2,147,483,647 bytes in form `Classic` or 8,589,934,592 in form `Wide`.
    #[error("a file of node {node} has {bytes} bytes")]
    FileTooLarge { node: u32, bytes: u128 },
}

/// The arrays that go out of a node.
fn made_at<'a>(graph: &Graph, stack: &Stack, plan: &'a Plan, node: u32) -> &'a Maker
    requires graph { IsGraph graph.now }
    requires plan { plan.now ≡ plan_of graph.now stack.now }
    ensures kind { result.now.kind ≡ (shape_at graph.now.nodes stack.now.shape node).kind }
    ensures dims { result.now.dims ≡ (shape_at graph.now.nodes stack.now.shape node).dims }
{
    maker_for(plan, stack, node)
}

/// A sum for each place of dimension 0 and for each of dimension 1.
fn profile_lengths(dims: &[Dim]) -> u64
    ensures lengths { result ≡ profile_lengths dims.now }
    ensures small { result < 2 ^ 34 }
{
    match dims {
        [] => 0,
        [x] => u64::from(x.size) + 1,
        [x, y, ..] => u64::from(x.size) + u64::from(y.size),
    }
}

/// The numbers that a node keeps of an array of these dimensions.
fn kept_by(kind: &Kind, dims: &[Dim]) -> u64
    ensures numbers { result ≡ kept_by kind.now dims.now }
    ensures small { result < 2 ^ 35 }
{
    match kind {
        Kind::Stats(rule) if rule.profiles => u64::from(rule.hist_size) + profile_lengths(dims),
        Kind::Stats(rule) => u64::from(rule.hist_size),
        Kind::Roi(_) | Kind::Circular(_) | Kind::File(_) | Kind::Scatter => 0,
    }
}

/// The numbers that all nodes keep of all frames.
fn kept(graph: &Graph, stack: &Stack, plan: &Plan) -> u64
    requires graph { IsGraph graph.now }
    requires load { length stack.now.arrays * length graph.now.nodes ≤ 1048576 }
    requires plan { plan.now ≡ plan_of graph.now stack.now }
    ensures { result ≡ kept graph.now stack.now }
{
    let frames = u64::from(stack.frames());
    let mut total = 0;
    let nodes = graph.nodes.as_slice();
    for place in 0..nodes.len() {
        let made = made_at(graph, stack, plan, place as u32 + 1);
        total += frames * kept_by(&nodes[place].kind, made.dims.as_slice());
    }
    total
}

/// The bytes of the longest file that a node writes of arrays like these; 0 at other kinds.
fn file_bytes(kind: &Kind, shape: &FileShape, frames: u32, made: &Maker) -> u128
    requires { IsWritable (record shape.now { kind = made.now.kind; dims = made.now.dims }) }
    ensures { result ≡ file_bytes kind.now (record shape.now { kind = made.now.kind; dims = made.now.dims }) frames }
{
    match kind {
        Kind::File(rule) => {
            let count = u64::from(rule.count.min(frames));
            length_with(shape, rule.form, made.kind, made.dims.as_slice(), count)
        }
        Kind::Roi(_) | Kind::Stats(_) | Kind::Circular(_) | Kind::Scatter => 0,
    }
}

/// The most bytes that a file of a node may have; 0 at other kinds, which write none.
fn most_bytes(kind: &Kind) -> u64
    ensures { result ≡ most_bytes kind.now }
{
    match kind {
        Kind::File(rule) => rule.form.longest(),
        Kind::Roi(_) | Kind::Stats(_) | Kind::Circular(_) | Kind::Scatter => 0,
    }
}

/// The first file node's file that is too long.
fn first_too_long(graph: &Graph, stack: &Stack, plan: &Plan) -> Option<LimitFault>
    requires graph { IsGraph graph.now }
    requires plan { plan.now ≡ plan_of graph.now stack.now }
    requires shape { IsWritable stack.now.shape }
    ensures { result ≡ first_too_long graph.now stack.now 1 (length graph.now.nodes) }
{
    let (shape, frames) = (stack.shape(), stack.frames());
    let nodes = graph.nodes.as_slice();
    for place in 0..nodes.len() {
        let node = place as u32 + 1;
        let made = made_at(graph, stack, plan, node);
        let kind = &nodes[place].kind;
        let bytes = file_bytes(kind, shape, frames, made);
        let most = u128::from(most_bytes(kind));
        if bytes > most {
            return Some(LimitFault::FileTooLarge { node, bytes });
        }
    }
    None
}

/// Tests the limits of a run. It takes no memory.
///
/// # Errors
///
/// The first limit that is passed: `Load` for more than 1,048,576 frames times nodes, `Kept` for more than
/// 67,108,864 numbers that statistics nodes keep (the bins and the profiles of each frame), `FileTooLarge` for
/// the first file node whose longest file would have more bytes than its form may have.
pub fn check_load(graph: &Graph, stack: &Stack, plan: &Plan) -> Result<(), LimitFault>
    requires graph { IsGraph graph.now }
    requires plan { plan.now ≡ plan_of graph.now stack.now }
    requires shape { IsWritable stack.now.shape }
    ensures { result ≡ answer (limit_fault graph.now stack.now) }
{
    let arrivals = u64::from(stack.frames()) * graph.nodes.as_slice().len() as u64;
    if arrivals > MOST_ARRIVALS {
        return Err(LimitFault::Load { arrivals });
    }
    let numbers = kept(graph, stack, plan);
    if numbers > MOST_KEPT {
        return Err(LimitFault::Kept { numbers });
    }
    match first_too_long(graph, stack, plan) {
        Some(fault) => Err(fault),
        None => Ok(()),
    }
}
