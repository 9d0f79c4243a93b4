//! The content of frames.

ghost use Rattle.std.specs.Prelude.{◌≡◌, ◌<◌, ◌*◌, length, slice_get, Some, IfOk};
ghost use Rattle.std.specs.Option.{option_map};
ghost use Rattle.nd_base.specs.GraphRules.{IsGraph, IsRoi};
ghost use Rattle.nd_base.specs.Samples.{width, samples_of};
ghost use Rattle.nd_base.specs.Shapes.{sample_count};
ghost use Rattle.nd_roi.specs.Cut.{region_dims};
ghost use Rattle.nd_roi.specs.Region.{region, region_samples, out_type};
ghost use Rattle.chain_plain.specs.Content.{content};
ghost use Rattle.chain_plain.specs.Passing.{out_of};

use nd_base::{
    Dim, FrameName, Graph, Head, Kind, NdArray, OutOfMemory, Plan, RoiRule, SampleType, Stack,
    frame_bytes, rule_at, same_head,
};
use nd_roi::{fill_region, region};
use std::alloc::Global;

/// The bytes of the region's samples, which are of this type and these dimensions.
#[tactic(auto, using(crate::proofs::Rules::region_dimensions, crate::proofs::Rules::region_few))]
fn region_bytes(
    alloc: Global,
    rule: &RoiRule,
    array: &NdArray,
    kind: SampleType,
    dims: &[Dim],
) -> Result<Vec<u8>, OutOfMemory>
    requires rule { IsRoi rule.now }
    requires kind { kind ≡ out_type rule.now array.now.kind }
    requires dims { dims.now ≡ region_dims rule.now array.now.dims }
    ensures size { IfOk result (λ bytes. length bytes.items ≡ sample_count dims.now * width kind) }
    ensures samples { IfOk result (λ bytes. samples_of kind bytes.items ≡ region_samples rule.now array.now.kind array.now.dims array.now.samples) }
{
    let whole = array.dims();
    let mut bytes = vec![in alloc; 0; frame_bytes(kind, dims)]?;
    fill_region(rule, array.kind(), whole, array.bytes(), &mut bytes);
    Ok(bytes)
}

/// The region that a rule cuts out of an array: the content at a region node, out of that at its input.
///
/// # Errors
///
/// Only for want of memory.
#[tactic(auto, using(crate::proofs::Rules::region_dimensions, crate::proofs::Rules::region_few))]
pub(crate) fn region_of(
    alloc: Global,
    rule: &RoiRule,
    array: &NdArray,
) -> Result<NdArray, OutOfMemory>
    requires { IsRoi rule.now }
    ensures { IfOk result (λ cut. cut ≡ region rule.now array.now) }
{
    let kind = rule.out.unwrap_or(array.kind());
    let dims = region(alloc, rule, array.dims())?;
    let bytes = region_bytes(alloc, rule, array, kind, &dims)?;
    let head = same_head(array.head())?;
    let Ok(cut) = NdArray::new(alloc, head, kind, dims, bytes) else {
        unreachable!()
    };
    Ok(cut)
}

/// Frame `index` of the stack as it goes out of a node.
fn array_out_of(
    alloc: Global,
    graph: &Graph,
    node: u32,
    stack: &Stack,
    index: u32,
) -> Result<NdArray, OutOfMemory>
    requires graph { IsGraph graph.now }
    requires frame { index < length stack.now.arrays }
    ensures { IfOk result (λ a. option_map (out_of region graph.now.nodes node) (slice_get stack.now.arrays index) ≡ Some a) }
{
    let Some(rule) = rule_at(graph.nodes.as_slice(), node) else {
        return stack.array(alloc, index);
    };
    let input = array_out_of(alloc, graph, rule.input, stack, index)?;
    match &rule.kind {
        Kind::Roi(roi) => region_of(alloc, roi, &input),
        Kind::Stats(_) | Kind::Circular(_) | Kind::File(_) | Kind::Scatter => Ok(input),
    }
}

/// The array that a frame's name stands for: at the driver the stack's array, and at a region node the region of the
/// content at the maker that the node's input passes on.
///
/// # Errors
///
/// Only for want of memory.
pub fn content(
    alloc: Global,
    plan: &Plan,
    stack: &Stack,
    name: FrameName,
) -> Result<NdArray, OutOfMemory>
    requires graph { IsGraph plan.now.graph }
    requires frame { name.index < length stack.now.arrays }
    ensures { IfOk result (λ a. content plan.now.graph.nodes stack.now.arrays name ≡ Some a) }
{
    array_out_of(alloc, &plan.graph, name.maker, stack, name.index)
}
