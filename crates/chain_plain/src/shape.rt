//! The shapes of the arrays that go out of nodes.

ghost use Rattle.std.specs.Prelude.{◌≡◌, ◌≤◌, IfOk, IsTrue};
ghost use Rattle.nd_base.specs.GraphRules.{IsGraph, IsRoi};
ghost use Rattle.nd_base.specs.Shapes.{has_dimensions, sample_count, most_samples};
ghost use Rattle.chain_plain.specs.Plans.{region_shape, shape_at};

use nd_base::{Dim, FileShape, Graph, Kind, OutOfMemory, RoiRule, SampleType, Seq, rule_at};
use nd_roi::region;
use std::alloc::Global;

/// Sample type and dimensions of arrays.
#[derive(Debug, Drop)]
pub struct Shape {
    pub kind: SampleType,
    pub dims: Seq<Dim>,
}

/// The shape of what the rule cuts out of arrays of a shape.
fn region_shape(alloc: Global, rule: &RoiRule, shape: &Shape) -> Result<Shape, OutOfMemory>
    requires rule { IsRoi rule.now }
    requires dimensions { IsTrue (has_dimensions shape.now.dims) }
    requires few { sample_count shape.now.dims ≤ most_samples }
    ensures value { IfOk result (λ s. s ≡ region_shape rule.now shape.now) }
    ensures dimensions { IfOk result (λ s. IsTrue (has_dimensions s.dims)) }
    ensures few { IfOk result (λ s. sample_count s.dims ≤ most_samples) }
{
    let dims = region(alloc, rule, shape.dims.as_slice())?;
    Ok(Shape {
        kind: rule.out.unwrap_or(shape.kind),
        dims: Seq::new(dims),
    })
}

/// The shape of the arrays that go out of a node, where the stack's arrays have this one.
pub(crate) fn shape_at(
    alloc: Global,
    graph: &Graph,
    shape: &FileShape,
    node: u32,
) -> Result<Shape, OutOfMemory>
    requires graph { IsGraph graph.now }
    requires dimensions { IsTrue (has_dimensions shape.now.dims) }
    requires few { sample_count shape.now.dims ≤ most_samples }
    ensures value { IfOk result (λ s. s ≡ shape_at graph.now.nodes shape.now node) }
    ensures dimensions { IfOk result (λ s. IsTrue (has_dimensions s.dims)) }
    ensures few { IfOk result (λ s. sample_count s.dims ≤ most_samples) }
{
    let Some(rule) = rule_at(graph.nodes.as_slice(), node) else {
        let dims = shape.dims.as_slice().to_vec(alloc)?;
        return Ok(Shape {
            kind: shape.kind,
            dims: Seq::new(dims),
        });
    };
    let input = shape_at(alloc, graph, shape, rule.input)?;
    match &rule.kind {
        Kind::Roi(roi) => region_shape(alloc, roi, &input),
        Kind::Stats(_) | Kind::Circular(_) | Kind::File(_) | Kind::Scatter => Ok(input),
    }
}
