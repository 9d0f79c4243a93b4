//! Reads what a board goes over.

ghost use Rattle.std.specs.Prelude.{◌≡◌, IfOk};
ghost use Rattle.nd_base.specs.GraphRules.{IsGraph};
ghost use Rattle.nd_base.specs.Stacks.{IsStack};
ghost use Rattle.chain_plain.specs.Plans.{plan_of};

use anyhow::{Context, Result};
use chain_plain::plan;
use graph_conf::read_graph;
use nd_base::{Plan, Stack};
use nd_stack::read_stack;
use std::alloc::Global;
use std::fs;
use std::rt::Files;

/// The plan of a graph over a stack, of these bytes, or why there is none.
fn plan_run(alloc: Global, graph: &[u8], stack: Vec<u8>) -> Result<Result<(Plan, Stack), String>>
    ensures plan { IfOk result (λ read. IfOk read (λ r. r.0 ≡ plan_of r.0.graph r.1)) }
    ensures graph { IfOk result (λ read. IfOk read (λ r. IsGraph r.0.graph)) }
    ensures stack { IfOk result (λ read. IfOk read (λ r. IsStack r.1)) }
{
    let graph = match read_graph(alloc, graph) {
        Ok(graph) => graph,
        Err(fault) => return Ok(Err(format!(in alloc; "refused: {fault}")?)),
    };
    let stack = match read_stack(alloc, stack) {
        Ok(stack) => stack,
        Err(fault) => return Ok(Err(format!(in alloc; "refused: {fault}")?)),
    };
    let _shape = stack.shape();
    let plan = plan(alloc, graph, &stack)?;
    Ok(Ok((plan, stack)))
}

/// The plan of a graph over a stack, of the files of these names, or why there is none.
pub fn read_run(
    rt: &(impl Files + AllocGlobal),
    alloc: Global,
    graph: &str,
    stack: &str,
) -> Result<Result<(Plan, Stack), String>>
    ensures plan { IfOk result (λ read. IfOk read (λ r. r.0 ≡ plan_of r.0.graph r.1)) }
    ensures graph { IfOk result (λ read. IfOk read (λ r. IsGraph r.0.graph)) }
    ensures stack { IfOk result (λ read. IfOk read (λ r. IsStack r.1)) }
{
    let graph = fs::read(rt, graph).context("the graph isn't read")?;
    let stack = fs::read(rt, stack).context("the stack isn't read")?;
    plan_run(alloc, &graph, stack)
}
