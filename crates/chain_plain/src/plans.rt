//! The plan of a graph and a stack.

ghost use Rattle.std.specs.Prelude.{◌≡◌, ◌≤◌, ◌==◌, find, map, option_copied, IfOk, IsTrue};
ghost use Rattle.nd_base.specs.GraphRules.{IsGraph};
ghost use Rattle.nd_base.specs.Shapes.{has_dimensions, sample_count, most_samples};
ghost use Rattle.chain_plain.specs.Nodes.{maker_at};
ghost use Rattle.chain_plain.specs.Plans.{maker_of, makers_of, shape_at, plan_of};

use crate::shape::shape_at;
use nd_base::{FileShape, Graph, Maker, OutOfMemory, Plan, Seq, Stack, frame_bytes, rule_at};
use std::alloc::Global;

/// The ids of the stack's frames.
#[tactic(auto, using(crate::proofs::Makers::ids_more))]
fn ids_of(alloc: Global, stack: &Stack) -> Result<Vec<i32>, OutOfMemory>
    ensures { IfOk result (λ ids. ids.items ≡ map (λ a. a.id) stack.now.arrays) }
{
    let mut ids = Vec::new(alloc);
    for k in 0..stack.frames() {
        ids.push(stack.head(k).id)?;
    }
    Ok(ids)
}

/// A node as a maker.
fn maker_at(
    alloc: Global,
    graph: &Graph,
    shape: &FileShape,
    node: u32,
) -> Result<Maker, OutOfMemory>
    requires graph { IsGraph graph.now }
    requires dimensions { IsTrue (has_dimensions shape.now.dims) }
    requires few { sample_count shape.now.dims ≤ most_samples }
    ensures { IfOk result (λ m. m ≡ maker_of node (shape_at graph.now.nodes shape.now node)) }
{
    let made = shape_at(alloc, graph, shape, node)?;
    let need = frame_bytes(made.kind, made.dims.as_slice()) as u32;
    Ok(Maker {
        node,
        kind: made.kind,
        dims: made.dims,
        need,
    })
}

/// The driver, and then the region nodes in the graph's order.
fn makers_of(alloc: Global, graph: &Graph, shape: &FileShape) -> Result<Vec<Maker>, OutOfMemory>
    requires graph { IsGraph graph.now }
    requires dimensions { IsTrue (has_dimensions shape.now.dims) }
    requires few { sample_count shape.now.dims ≤ most_samples }
    ensures { IfOk result (λ makers. makers.items ≡ makers_of graph.now.nodes shape.now) }
{
    let mut makers = vec![in alloc; maker_at(alloc, graph, shape, 0)?]?;
    for (place, rule) in graph.nodes.as_slice().iter().enumerate() {
        if rule.kind.makes_arrays() {
            makers.push(maker_at(alloc, graph, shape, place as u32 + 1)?)?;
        }
    }
    Ok(makers)
}

/// The number of the maker of what a node passes on.
fn maker_number(graph: &Graph, node: u32) -> u32
    requires { IsGraph graph.now }
    ensures { result ≡ maker_at graph.now.nodes node }
{
    let Some(rule) = rule_at(graph.nodes.as_slice(), node) else {
        return 0;
    };
    if rule.kind.makes_arrays() {
        return node;
    }
    maker_number(graph, rule.input)
}

/// The first of these makers that is this node.
fn find_maker(makers: &[Maker], node: u32) -> Option<&Maker>
    ensures { option_copied result ≡ find (λ m. m.node == node) makers.now }
{
    makers.iter().find(|maker| maker.node == node)
}

/// The maker of what a node passes on, with the type, dimensions and bytes of these arrays: the first region node on
/// the way up from the node, the node itself among them, or the driver where there is none. It takes no memory.
pub fn maker_for<'a>(plan: &'a Plan, stack: &Stack, node: u32) -> &'a Maker
    requires graph { IsGraph plan.now.graph }
    requires plan { plan.now ≡ plan_of plan.now.graph stack.now }
    ensures number { result.now.node ≡ maker_at plan.now.graph.nodes node }
    ensures shape { result.now ≡ maker_of result.now.node (shape_at plan.now.graph.nodes stack.now.shape node) }
{
    let number = maker_number(&plan.graph, node);
    let Some(maker) = find_maker(plan.makers.as_slice(), number) else {
        unreachable!()
    };
    maker
}

/// The plan of a graph and a stack: the graph, the ids of the stack's frames, and each maker with the type,
/// dimensions and bytes of its arrays, the driver first and then the region nodes in the graph's order.
///
/// # Errors
///
/// Only for want of memory.
pub fn plan(alloc: Global, graph: Graph, stack: &Stack) -> Result<Plan, OutOfMemory>
    requires { IsGraph graph }
    ensures { IfOk result (λ p. p ≡ plan_of graph stack.now) }
{
    let ids = ids_of(alloc, stack)?;
    let makers = makers_of(alloc, &graph, stack.shape())?;
    Ok(Plan {
        graph,
        ids: Seq::new(ids),
        makers: Seq::new(makers),
    })
}
