//! What a worker does with a job, outside the lock.

ghost use Rattle.std.specs.Prelude.{ℕ, List, ◌≡◌, ◌<◌, ◌≤◌, ◌*◌, ◌^◌, length, take, Some, None, IfOk, IfErr, IsTrue};
ghost use Rattle.nd_base.specs.GraphRules.{IsGraph, IsRoi, rule_at};
ghost use Rattle.nd_base.specs.Samples.{width, samples_of};
ghost use Rattle.nd_base.specs.Shapes.{sample_count};
ghost use Rattle.nd_base.specs.declared.graph.Kind.TheVariants.{Roi, Stats, Circular};
ghost use Rattle.nd_roi.specs.Cut.{region_dims};
ghost use Rattle.nd_roi.specs.Region.{out_type, region_samples};
ghost use Rattle.nd_base.specs.Stacks.{IsStack};
ghost use Rattle.chain_plain.specs.Content.{IsContent};
ghost use Rattle.chain_plain.specs.ContentLaws.{IsArrayShape};
ghost use Rattle.chain_plain.specs.Plans.{plan_of, maker_of, shape_at};
ghost use Rattle.flow_journal.specs.Setting.{is_node};
ghost use Rattle.board_rules.specs.RunMeasures.{run_setting, run_measure};
ghost use Rattle.trig_window.specs.Triggers.{trigger_fires};
ghost use Rattle.flow_roles.specs.Worker.{ComesTo, FitsNode, IsJobDone};

use crate::Measuring;
use board_rules::{Done, Left};
use chain_plain::maker_for;
use frame_store::{Blank, Frame};
use nd_base::{
    CircularRule, FrameName, Kind, Maker, Measure, Named, NodeRule, OutOfMemory, Plan, RoiRule,
    Run, Stack, StatsRule, rule_at,
};
use nd_roi::fill_region;
use std::alloc::Global;
use trig_window::trigger_fires;

/// The index of a frame, which is below the number of frames.
fn index_of<R: Run>(input: &Frame<R>) -> u32
    ensures index { result ≡ input.now.name.index }
    ensures there { result < length R.stack.arrays }
{
    let _content = input.samples();
    input.name().index
}

/// The maker of what a node passes on, with the type, dimensions and bytes of these arrays.
fn made_by<'a, R: Run>(plan: &'a Plan, stack: &Stack, node: u32) -> &'a Maker
    requires plan { plan.now ≡ plan_of R.graph R.stack }
    requires graph { IsGraph R.graph }
    requires stack { stack.now ≡ R.stack }
    ensures shape { result.now ≡ maker_of result.now.node (shape_at R.graph.nodes R.stack.shape node) }
    ensures dims { IsArrayShape result.now.dims }
    ensures stack { IsStack R.stack }
{
    let _shape = stack.shape();
    maker_for(plan, stack, node)
}

/// Fills `out` with the region of an array's samples.
fn fill_whole(rule: &RoiRule, from: &Maker, samples: &[u8], out: &mut [u8])
    requires rule { IsRoi rule.now }
    requires dims { IsArrayShape from.now.dims }
    requires samples { length samples.now ≡ sample_count from.now.dims * width from.now.kind }
    requires size { length out.old ≡ sample_count (region_dims rule.now from.now.dims) * width (out_type rule.now from.now.kind) }
    ensures { samples_of (out_type rule.now from.now.kind) out.new
        ≡ region_samples rule.now from.now.kind from.now.dims (samples_of from.now.kind samples.now) }
{
    fill_region(rule, from.kind, from.dims.as_slice(), samples, out);
}

/// Writes the region of an array's samples to the first `size` bytes of `out`.
fn write_region(rule: &RoiRule, from: &Maker, size: usize, samples: &[u8], out: &mut [u8])
    requires rule { IsRoi rule.now }
    requires dims { IsArrayShape from.now.dims }
    requires samples { length samples.now ≡ sample_count from.now.dims * width from.now.kind }
    requires size { size ≡ sample_count (region_dims rule.now from.now.dims) * width (out_type rule.now from.now.kind) }
    requires room { size ≤ length out.old }
    ensures { samples_of (out_type rule.now from.now.kind) (take size out.new)
        ≡ region_samples rule.now from.now.kind from.now.dims (samples_of from.now.kind samples.now) }
{
    fill_whole(rule, from, samples, &mut out[..size]);
}

/// The frame of this name that holds the region of an array's samples, on this storage.
fn cut_on<R: Run>(
    rule: &RoiRule,
    from: &Maker,
    samples: &[u8],
    name: FrameName,
    size: u32,
    blank: Blank,
) -> Frame<R>
    requires rule { IsRoi rule.now }
    requires dims { IsArrayShape from.now.dims }
    requires samples { length samples.now ≡ sample_count from.now.dims * width from.now.kind }
    requires size { size ≡ sample_count (region_dims rule.now from.now.dims) * width (out_type rule.now from.now.kind) }
    requires room { size ≤ length blank }
    requires content { (out : List ℕ) → length out ≡ size → samples_of (out_type rule.now from.now.kind) out
        ≡ region_samples rule.now from.now.kind from.now.dims (samples_of from.now.kind samples.now) → IsContent R.graph R.stack name out }
    ensures name { result.name ≡ name }
    ensures parts { (result.parts.size ≡ length blank) × (result.parts.here ≡ 2 ^ 32) }
{
    let mut blank = blank;
    write_region(rule, from, size as usize, samples, blank.bytes());
    blank.seal(name, size)
}

/// What a region node makes of an array, on this storage.
fn region_on<R: Run>(
    plan: &Plan,
    stack: &Stack,
    node: u32,
    rule: &NodeRule,
    roi: &RoiRule,
    input: &Frame<R>,
    blank: Blank,
) -> Frame<R>
    requires plan { plan.now ≡ plan_of R.graph R.stack }
    requires graph { IsGraph R.graph }
    requires stack { stack.now ≡ R.stack }
    requires rule { rule_at R.graph.nodes node ≡ Some rule.now }
    requires kind { rule.now.kind ≡ Roi roi.now }
    requires comes { ComesTo R.graph node input.now }
    requires room { (run_setting R.graph R.stack).need node ≤ length blank }
    ensures name { result.name ≡ record { maker = node; index = input.now.name.index } }
    ensures parts { (result.parts.size ≡ length blank) × (result.parts.here ≡ 2 ^ 32) }
{
    let from = made_by::<R>(plan, stack, rule.input);
    let to = made_by::<R>(plan, stack, node);
    let name = FrameName {
        maker: node,
        index: input.name().index,
    };
    cut_on(roi, from, input.samples(), name, to.need, blank)
}

/// The measure that a statistics node takes of an array. The frame's own samples are read.
fn measured<R: Run, M: Measuring>(
    measuring: &M,
    alloc: Global,
    plan: &Plan,
    stack: &Stack,
    node: u32,
    rule: &NodeRule,
    stats: &StatsRule,
    input: &Frame<R>,
) -> Result<Measure, OutOfMemory>
    requires ready { M.ready measuring.now }
    requires plan { plan.now ≡ plan_of R.graph R.stack }
    requires graph { IsGraph R.graph }
    requires stack { stack.now ≡ R.stack }
    requires rule { rule_at R.graph.nodes node ≡ Some rule.now }
    requires kind { rule.now.kind ≡ Stats stats.now }
    requires comes { ComesTo R.graph node input.now }
    ensures { IfOk result (λ m. run_measure R.graph R.stack node input.now.name ≡ Some m) }
{
    let from = made_by::<R>(plan, stack, rule.input);
    let id = stack.head(index_of(input)).id;
    measuring.measure(
        alloc,
        stats,
        id,
        from.kind,
        from.dims.as_slice(),
        input.samples(),
    )
}

/// Whether the trigger of a circular node fires at an array, by the attributes of its frame.
fn fires_at<R: Run>(
    stack: &Stack,
    node: u32,
    rule: &NodeRule,
    circular: &CircularRule,
    input: &Frame<R>,
) -> bool
    requires stack { stack.now ≡ R.stack }
    requires rule { rule_at R.graph.nodes node ≡ Some rule.now }
    requires kind { rule.now.kind ≡ Circular circular.now }
    ensures { result ≡ (run_setting R.graph R.stack).fires node input.now.name.index }
{
    trigger_fires(circular, &stack.head(index_of(input)).attrs)
}

/// The result of a job that makes and measures nothing.
fn passed_on<F>(node: u32, input: F, fired: bool) -> Done<F>
    ensures { result ≡ record { node = node; input = input; made = None; measured = None; fired = fired } }
{
    Done {
        node,
        input,
        made: None,
        measured: None,
        fired,
    }
}

/// The result of a job, or, where memory is wanting, what was handed out for it.
pub fn result_of<R: Run, M: Measuring>(
    measuring: &M,
    alloc: Global,
    plan: &Plan,
    stack: &Stack,
    node: u32,
    input: Frame<R>,
    blank: Option<Blank>,
) -> Result<Done<Frame<R>>, Left<Frame<R>>>
    requires ready { M.ready measuring.now }
    requires plan { plan.now ≡ plan_of R.graph R.stack }
    requires graph { IsGraph R.graph }
    requires stack { stack.now ≡ R.stack }
    requires node { IsTrue (is_node (run_setting R.graph R.stack) node) }
    requires comes { ComesTo R.graph node input }
    requires fits { FitsNode R.graph R.stack node blank }
    ensures done { IfOk result (λ done. IsJobDone R.graph R.stack node input blank done) }
    ensures left { IfErr result (λ left. left ≡ record { input = Some input; made = None; blank = blank }) }
{
    let Some(rule) = rule_at(plan.graph.nodes.as_slice(), node) else {
        unreachable!()
    };
    match &rule.kind {
        Kind::Roi(roi) => {
            let Some(blank) = blank else { unreachable!() };
            let made = region_on(plan, stack, node, rule, roi, &input, blank);
            Ok(Done {
                node,
                input,
                made: Some(made),
                measured: None,
                fired: false,
            })
        }
        Kind::Stats(stats) => {
            match measured(measuring, alloc, plan, stack, node, rule, stats, &input) {
                Ok(numbers) => Ok(Done {
                    node,
                    input,
                    made: None,
                    measured: Some(numbers),
                    fired: false,
                }),
                Err(_) => Err(Left {
                    input: Some(input),
                    made: None,
                    blank,
                }),
            }
        }
        Kind::Circular(circular) => {
            let fired = fires_at(stack, node, rule, circular, &input);
            Ok(passed_on(node, input, fired))
        }
        Kind::File(_) => Ok(passed_on(node, input, false)),
        Kind::Scatter => Ok(passed_on(node, input, false)),
    }
}
