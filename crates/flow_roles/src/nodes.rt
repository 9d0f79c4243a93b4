//! The nodes that the workers of a run work at.

ghost use Rattle.std.specs.Prelude.{◌≡◌, ◌++◌, replicate, IfOk};
ghost use Rattle.nd_base.specs.GraphRules.{IsGraph};
ghost use Rattle.chain_plain.specs.Plans.{plan_of};
ghost use Rattle.board_rules.specs.RunMeasures.{run_setting};
ghost use Rattle.flow_roles.specs.Workers.{workers};

use nd_base::{OutOfMemory, Plan, Run};
use std::alloc::Global;

/// Adds the number of a node, as often as it has threads.
fn add_threads(nodes: &mut Vec<u32>, node: u32, threads: u32) -> Result<(), OutOfMemory>
    ensures { IfOk result (λ _. nodes.new.items ≡ nodes.old.items ++ replicate threads node) }
{
    for _ in 0..threads {
        nodes.push(node)?;
    }
    Ok(())
}

/// The node of each worker of the run, from role 1 on: each node as often as it has threads.
///
/// # Errors
///
/// Only for want of memory.
pub fn worker_nodes<R: Run>(alloc: Global, plan: &Plan) -> Result<Vec<u32>, OutOfMemory>
    requires plan { plan.now ≡ plan_of R.graph R.stack }
    requires graph { IsGraph R.graph }
    ensures { IfOk result (λ nodes. nodes.items ≡ workers (run_setting R.graph R.stack)) }
{
    let mut nodes = Vec::new(alloc);
    for (place, rule) in plan.graph.nodes.as_slice().iter().enumerate() {
        add_threads(&mut nodes, place as u32 + 1, rule.threads)?;
    }
    Ok(nodes)
}
