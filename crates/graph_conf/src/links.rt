//! The nodes of a graph together: names, inputs, cycles and threads.
ghost use Rattle.std.specs.Prelude.{◌≡◌, ◌≤◌, ◌<◌, ◌^◌, ◌&&◌, length, All, IfSome, IfOk};
ghost use Rattle.std.specs.List.{list_any, position_from};
ghost use Rattle.std.specs.Str.{bytes_eq};
ghost use Rattle.nd_base.specs.GraphRules.{IsNode, may_feed};
ghost use Rattle.graph_conf.specs.Answers.{Gives};
ghost use Rattle.graph_conf.specs.declared.fault.GraphFault.TheVariants.{DoubleName, Cycle};
ghost use Rattle.graph_conf.specs.Links.{AreLinked};
ghost use Rattle.graph_conf.specs.Graphs.{first_place, refused_node, is_double, input_number, input_numbers, input_of, is_circular, few_threads};
ghost use Rattle.graph_conf.specs.Graphs.{thread_count, linked, with_inputs};

use crate::GraphFault;
use crate::keys::out_of_range;
use crate::node::NamedNode;
use nd_base::NodeRule;
use std::alloc::{AllocError, Global};

/// The most threads of all nodes together.
const MOST_THREADS: u64 = 64;

/// One of the nodes has this name.
fn is_named(nodes: &[NamedNode], name: &str) -> bool
    ensures { result ≡ list_any (λ n. bytes_eq n.rule.name name.now) nodes.now }
{
    nodes.iter().any(|node| node.rule.name.text() == name)
}

/// An earlier node has the name of the node at this place.
fn is_double(nodes: &[NamedNode], place: usize) -> bool
    requires { place < length nodes.now }
    ensures { result ≡ is_double nodes.now place }
{
    is_named(&nodes[..place], nodes[place].name())
}

/// No two nodes have one name.
fn distinct(nodes: &[NamedNode]) -> Result<(), GraphFault>
    requires few { length nodes.now ≤ 32 }
    ensures { Gives (λ _. tt) result (refused_node DoubleName (first_place (is_double nodes.now) 0 (length nodes.now))) }
{
    for place in 0..nodes.len() {
        if is_double(nodes, place) {
            return Err(GraphFault::DoubleName {
                node: place as u32 + 1,
            });
        }
    }
    Ok(())
}

/// The place of the first node with this name that may have children.
fn place_of(nodes: &[NamedNode], name: &str) -> Option<usize>
    ensures within { IfSome result (λ k. k < length nodes.now) }
    ensures place { result ≡ position_from (λ n. bytes_eq n.rule.name name.now && may_feed n.rule.kind) 0 nodes.now }
{
    nodes.iter().position(|node| node.rule.name.text() == name && node.rule.kind.may_feed())
}

/// The number of the node that an input names.
fn input_number(nodes: &[NamedNode], input: &str) -> Option<u32>
    requires few { length nodes.now ≤ 32 }
    ensures { result ≡ input_number nodes.now input.now }
{
    if input == "driver" {
        return Some(0);
    }
    match place_of(nodes, input) {
        Some(place) => Some(place as u32 + 1),
        None => None,
    }
}

/// The numbers of the inputs.
fn input_numbers(alloc: Global, nodes: &[NamedNode]) -> Result<Vec<u32>, GraphFault>
    requires few { length nodes.now ≤ 32 }
    ensures gives { Gives (λ list. list.items) result (input_numbers nodes.now 1 nodes.now) }
    ensures len { IfOk result (λ list. length list.items ≡ length nodes.now) }
{
    let mut inputs = Vec::with_capacity(alloc, nodes.len())?;
    for node in nodes {
        let number = inputs.len() as u32 + 1;
        match input_number(nodes, node.input.text()) {
            Some(input) => inputs.push(input)?,
            None => return Err(GraphFault::UnknownInput { node: number }),
        }
    }
    Ok(inputs)
}

/// The nodes with these inputs.
fn with_inputs(
    alloc: Global,
    nodes: Vec<NamedNode>,
    inputs: &[u32],
) -> Result<Vec<NodeRule>, AllocError>
    requires { length inputs.now ≡ length nodes.items }
    ensures rules { IfOk result (λ list. list.items ≡ with_inputs nodes.items inputs.now) }
    ensures len { IfOk result (λ list. length list.items ≡ length inputs.now) }
{
    let mut rules = Vec::with_capacity(alloc, inputs.len())?;
    for node in nodes {
        let mut rule = node.rule;
        rule.input = inputs[rules.len()];
        rules.push(rule)?;
    }
    Ok(rules)
}

/// The number of a node's input; 0 at the driver, and where there is no such node.
fn input_of(inputs: &[u32], node: u32) -> u32
    ensures { result ≡ input_of inputs.now node }
{
    match node.checked_sub(1) {
        Some(place) => inputs.get(place as usize).copied().unwrap_or(0),
        None => 0,
    }
}

/// As many steps up as there are nodes don't lead from the node at this place to the driver.
fn is_circular(inputs: &[u32], place: u32) -> bool
    requires place { place < length inputs.now }
    requires few { length inputs.now ≤ 32 }
    ensures { result ≡ is_circular inputs.now place }
{
    let mut node = place + 1;
    for _ in 0..inputs.len() {
        node = input_of(inputs, node);
    }
    node != 0
}

/// The inputs of each node lead to the driver.
fn acyclic(inputs: &[u32]) -> Result<(), GraphFault>
    requires few { length inputs.now ≤ 32 }
    ensures { Gives (λ _. tt) result (refused_node Cycle (first_place (is_circular inputs.now) 0 (length inputs.now))) }
{
    for place in 0..inputs.len() {
        if is_circular(inputs, place as u32) {
            return Err(GraphFault::Cycle {
                node: place as u32 + 1,
            });
        }
    }
    Ok(())
}

/// The threads of all nodes together.
fn thread_count(rules: &[NodeRule]) -> u64
    requires few { length rules.now ≤ 32 }
    ensures total { result ≡ thread_count rules.now }
    ensures bound { result < 2 ^ 40 }
{
    let mut total = 0;
    for rule in rules {
        total += u64::from(rule.threads);
    }
    total
}

/// The nodes, where their threads are few enough.
fn few_threads(alloc: Global, rules: Vec<NodeRule>) -> Result<Vec<NodeRule>, GraphFault>
    requires few { length rules.items ≤ 32 }
    ensures gives { Gives (λ kept. kept.items) result (few_threads rules.items) }
    ensures kept { IfOk result (λ kept. (kept.items ≡ rules.items) × (thread_count rules.items ≤ 64)) }
{
    let threads = thread_count(&rules);
    if threads > MOST_THREADS {
        return Err(out_of_range(alloc, "threads", threads as i64)?);
    }
    Ok(rules)
}

/// The nodes with the numbers of their inputs.
#[tactic(auto, unfolding(crate::specs::Graphs::linked))]
pub(crate) fn linked(alloc: Global, nodes: Vec<NamedNode>) -> Result<Vec<NodeRule>, GraphFault>
    requires few { length nodes.items ≤ 32 }
    requires sound { All (λ n. IsNode n.rule) nodes.items }
    ensures gives { Gives (λ list. list.items) result (linked nodes.items) }
    ensures sound { IfOk result (λ list. AreLinked list.items) }
{
    distinct(&nodes)?;
    let inputs = input_numbers(alloc, &nodes)?;
    acyclic(&inputs)?;
    let rules = with_inputs(alloc, nodes, &inputs)?;
    few_threads(alloc, rules)
}
