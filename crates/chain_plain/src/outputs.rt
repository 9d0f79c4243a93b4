//! What a node passes on in one thread.

ghost use Rattle.std.specs.Prelude.{◌≡◌, ◌<◌, length, map, All, IfOk};
ghost use Rattle.nd_base.specs.GraphRules.{IsBetween, IsCircular, IsGraph};
ghost use Rattle.trig_window.specs.Windows.{passed_items};
ghost use Rattle.chain_plain.specs.OneThread.{fires_at, outputs};

use nd_base::{CircularRule, Kind, OutOfMemory, Plan, Stack, rule_at};
use std::alloc::Global;
use trig_window::{passed_positions, trigger_fires};

/// All of the positions.
fn all_of(alloc: Global, accepted: &[u32]) -> Result<Vec<u32>, OutOfMemory>
    ensures { IfOk result (λ v. v.items ≡ accepted.now) }
{
    Ok(accepted.to_vec(alloc)?)
}

/// Which of the positions fire.
fn firing(
    alloc: Global,
    rule: &CircularRule,
    stack: &Stack,
    accepted: &[u32],
) -> Result<Vec<bool>, OutOfMemory>
    requires accepted { All (λ k. k < length stack.now.arrays) accepted.now }
    ensures { IfOk result (λ v. v.items ≡ map (fires_at rule.now stack.now.arrays) accepted.now) }
{
    let mut fired = Vec::with_capacity(alloc, accepted.len())?;
    for &position in accepted {
        fired.push(trigger_fires(rule, &stack.head(position).attrs))?;
    }
    Ok(fired)
}

/// Those of the positions that lie in the rule's trigger windows.
fn windowed(
    alloc: Global,
    rule: &CircularRule,
    stack: &Stack,
    accepted: &[u32],
) -> Result<Vec<u32>, OutOfMemory>
    requires rule { IsCircular rule.now }
    requires accepted { All (λ k. k < length stack.now.arrays) accepted.now }
    ensures { IfOk result (λ v. v.items
        ≡ passed_items rule.now.pre rule.now.post rule.now.preset (map (fires_at rule.now stack.now.arrays) accepted.now) accepted.now) }
{
    let fired = firing(alloc, rule, stack, accepted)?;
    passed_positions(alloc, rule.pre, rule.post, rule.preset, &fired, accepted)
}

/// The positions that a node passes on, where it accepted these in this order: at a circular node those in its
/// trigger windows, and at every other node all of them.
///
/// # Errors
///
/// Only for want of memory.
pub fn plain_outputs(
    alloc: Global,
    plan: &Plan,
    stack: &Stack,
    node: u32,
    accepted: &[u32],
) -> Result<Vec<u32>, OutOfMemory>
    requires graph { IsGraph plan.now.graph }
    requires node { IsBetween 1 (length plan.now.graph.nodes) node }
    requires accepted { All (λ k. k < length stack.now.arrays) accepted.now }
    ensures { IfOk result (λ v. v.items ≡ outputs plan.now.graph.nodes stack.now.arrays node accepted.now) }
{
    let Some(rule) = rule_at(plan.graph.nodes.as_slice(), node) else {
        return all_of(alloc, accepted);
    };
    match &rule.kind {
        Kind::Circular(circular) => windowed(alloc, circular, stack, accepted),
        Kind::Roi(_) | Kind::Stats(_) | Kind::File(_) | Kind::Scatter => all_of(alloc, accepted),
    }
}
