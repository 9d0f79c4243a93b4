//! The positions that go out of nodes in a plain run.

ghost use Rattle.std.specs.Prelude.{◌≡◌, ◌<◌, ◌≤◌, ◌%◌, ◌==◌, length, All, IfOk, IsSomeAnd};
ghost use Rattle.std.specs.List.{range_with_len};
ghost use Rattle.nd_base.specs.GraphRules.{IsGraph, rule_at};
ghost use Rattle.trig_window.specs.Windows.{at_positions};
ghost use Rattle.chain_plain.specs.PlainRun.{fed_by, share_of, passed};

use chain_plain::plain_outputs;
use nd_base::{Kind, NodeRule, OutOfMemory, Plan, Stack, rule_at};
use std::alloc::Global;

/// The positions of all frames.
fn all_frames(alloc: Global, stack: &Stack) -> Result<Vec<u32>, OutOfMemory>
    ensures { IfOk result (λ v. v.items ≡ range_with_len 0 (length stack.now.arrays)) }
{
    Ok((0..stack.frames()).collect(alloc)?)
}

/// How many of these nodes have this input.
fn fed_by(rules: &[NodeRule], input: u32) -> usize
    ensures { result ≡ fed_by rules.now input }
{
    rules.iter().filter(|rule| rule.input == input).count()
}

/// The positions that the child at this place gets where they are dealt out to so many children in turn.
fn dealt(
    alloc: Global,
    positions: &[u32],
    place: usize,
    children: usize,
) -> Result<Vec<u32>, OutOfMemory>
    requires { 1 ≤ children }
    ensures { IfOk result (λ v. v.items ≡ at_positions (λ j. j % children == place) 0 positions.now) }
{
    let mut own = Vec::new(alloc);
    for (turn, &position) in positions.iter().enumerate() {
        if turn % children == place {
            own.push(position)?;
        }
    }
    Ok(own)
}

/// The positions that a node gets of those that go out of its input: a scatter node deals them out to its children in turn,
/// in the graph's order, and every other gives all of them to each.
fn shared(
    alloc: Global,
    rules: &[NodeRule],
    input: u32,
    node: u32,
    outgoing: Vec<u32>,
) -> Result<Vec<u32>, OutOfMemory>
    requires node { IsSomeAnd (rule_at rules.now node) (λ rule. rule.input ≡ input) }
    ensures { IfOk result (λ v. v.items ≡ share_of rules.now input node outgoing.items) }
{
    let Some(source) = rule_at(rules, input) else {
        return Ok(outgoing);
    };
    match &source.kind {
        Kind::Scatter => {
            let place = fed_by(&rules[..node as usize - 1], input);
            dealt(alloc, &outgoing, place, fed_by(rules, input))
        }
        Kind::Roi(_) | Kind::Stats(_) | Kind::Circular(_) | Kind::File(_) => Ok(outgoing),
    }
}

/// The positions that go out of a node: all frames out of the driver, and out of another node those that it passes
/// on of what its input passes on to it.
///
/// # Errors
///
/// Only for want of memory.
pub fn passed(alloc: Global, plan: &Plan, stack: &Stack, node: u32) -> Result<Vec<u32>, OutOfMemory>
    requires graph { IsGraph plan.now.graph }
    requires node { node ≤ length plan.now.graph.nodes }
    ensures value { IfOk result (λ v. v.items ≡ passed plan.now.graph stack.now node) }
    ensures within { IfOk result (λ v. All (λ k. k < length stack.now.arrays) v.items) }
    ensures few { IfOk result (λ v. length v.items ≤ length stack.now.arrays) }
{
    let rules = plan.graph.nodes.as_slice();
    let Some(rule) = rule_at(rules, node) else {
        return all_frames(alloc, stack);
    };
    let outgoing = passed(alloc, plan, stack, rule.input)?;
    let accepted = shared(alloc, rules, rule.input, node, outgoing)?;
    plain_outputs(alloc, plan, stack, node, &accepted)
}
