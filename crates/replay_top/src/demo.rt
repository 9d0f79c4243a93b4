//! The demo run: a stack of frames that a rule makes, and a graph that has room for all of them.

ghost use Rattle.std.specs.Prelude.{◌≡◌, ◌≤◌, None, IfOk};
ghost use Rattle.nd_base.specs.GraphRules.{IsGraph};
ghost use Rattle.nd_stack.specs.KeptStacks.{IsKeptStack};
ghost use Rattle.chain_plain.specs.Plans.{plan_of};
ghost use Rattle.graph_conf.specs.Loads.{limit_fault};
ghost use Rattle.demo_laws.specs.Demo.{demo_file, demo_graph, demo_roi, demo_stack, demo_stats, sorting_node};

use chain_plain::plan;
use demo_laws::demos_are_whole;
use nd_base::{
    FileRule, Form, Graph, Kind, Mode, Name, NodeRule, OutOfMemory, Plan, RoiRule, SampleType, Seq,
    Stack, StatsRule,
};
use nd_stack::{GenFault, gen_stack};
use std::alloc::Global;

/// No result waits for longer than these ticks, unless the log's are further apart.
const SPAN: u64 = 2_147_483_647;

/// A node of four threads whose queue and sort list have room for all frames.
fn sorting_node(
    alloc: Global,
    name: &str,
    kind: Kind,
    input: u32,
    frames: u32,
) -> Result<NodeRule, OutOfMemory>
    ensures { IfOk result (λ node. node ≡ sorting_node name.now kind input frames) }
{
    Ok(NodeRule {
        name: Name::new(String::from_str(alloc, name)?),
        kind,
        input,
        queue: frames,
        threads: 4,
        sort: frames,
        sort_time: SPAN,
    })
}

/// Sums two by two samples of each frame.
fn roi_node(alloc: Global, frames: u32) -> Result<NodeRule, OutOfMemory>
    ensures { IfOk result (λ node. node ≡ demo_roi frames) }
{
    let rule = RoiRule {
        min: Seq::new(Vec::new(alloc)),
        size: Seq::new(Vec::new(alloc)),
        bin: Seq::new(vec![in alloc; 2, 2]?),
        reverse: Seq::new(Vec::new(alloc)),
        auto: Seq::new(Vec::new(alloc)),
        scale: 1,
        out: Some(SampleType::UInt16),
    };
    sorting_node(alloc, "roi", Kind::Roi(rule), 0, frames)
}

/// Measures each region.
fn stats_node(alloc: Global, frames: u32) -> Result<NodeRule, OutOfMemory>
    ensures { IfOk result (λ node. node ≡ demo_stats frames) }
{
    let rule = StatsRule {
        threshold: 0,
        border: 0,
        hist_size: 0,
        hist_lo: 0,
        hist_hi: 255,
        profiles: false,
    };
    sorting_node(alloc, "stats", Kind::Stats(rule), 1, frames)
}

/// Writes all of them to one file.
fn file_node(alloc: Global, frames: u32) -> Result<NodeRule, OutOfMemory>
    ensures { IfOk result (λ node. node ≡ demo_file frames) }
{
    let rule = FileRule {
        mode: Mode::Stream,
        count: frames,
        form: Form::Classic,
    };
    Ok(NodeRule {
        name: Name::new(String::from_str(alloc, "file")?),
        kind: Kind::File(rule),
        input: 2,
        queue: frames,
        threads: 1,
        sort: 0,
        sort_time: 100,
    })
}

/// The graph of the demo run.
fn demo_graph(alloc: Global, frames: u32) -> Result<Graph, OutOfMemory>
    ensures { IfOk result (λ graph. graph ≡ demo_graph frames) }
{
    let roi = roi_node(alloc, frames)?;
    let stats = stats_node(alloc, frames)?;
    let file = file_node(alloc, frames)?;
    Ok(Graph {
        wait: false,
        limit: 0,
        nodes: Seq::new(vec![in alloc; roi, stats, file]?),
    })
}

/// Its stack.
fn demo_stack(alloc: Global, frames: u32) -> Result<Stack, OutOfMemory>
    requires { frames ≤ 4096 }
    ensures value { IfOk result (λ stack. stack ≡ demo_stack frames) }
    ensures kept { IfOk result IsKeptStack }
{
    match gen_stack(alloc, frames, 64, 48, SampleType::UInt8, 1) {
        Ok(stack) => Ok(stack),
        Err(GenFault::OutOfMemory) => Err(OutOfMemory),
        Err(GenFault::GenRange | GenFault::GenBytes { .. }) => unreachable!(),
    }
}

/// Makes the demo run of so many frames. No limit is passed.
pub(crate) fn make_demo(alloc: Global, frames: u32) -> Result<(Plan, Stack), OutOfMemory>
    requires some { 1 ≤ frames }
    requires few { frames ≤ 4096 }
    ensures graph { IfOk result (λ r. r.0.graph ≡ demo_graph frames) }
    ensures stack { IfOk result (λ r. r.1 ≡ demo_stack frames) }
    ensures plan { IfOk result (λ r. r.0 ≡ plan_of r.0.graph r.1) }
    ensures sound { IfOk result (λ r. IsGraph r.0.graph) }
    ensures kept { IfOk result (λ r. IsKeptStack r.1) }
    ensures within { IfOk result (λ r. limit_fault r.0.graph r.1 ≡ None) }
{
    demos_are_whole();
    let graph = demo_graph(alloc, frames)?;
    let stack = demo_stack(alloc, frames)?;
    let plan = plan(alloc, graph, &stack)?;
    Ok((plan, stack))
}
