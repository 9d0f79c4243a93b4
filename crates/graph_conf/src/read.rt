//! The graph of a text.
ghost use Rattle.std.specs.Prelude.{◌≡◌, ◌≤◌, length, map, ℕ, Option, Some, None, Err, All, IfOk, IfErr};
ghost use Rattle.std.specs.Option.{option_map};
ghost use Rattle.toml.specs.Data.{as_table};
ghost use Rattle.toml.specs.View.{view, array_view, table_view};
ghost use Rattle.nd_base.specs.GraphRules.{IsNode, IsGraph};
ghost use Rattle.graph_conf.specs.Answers.{Gives};
ghost use Rattle.graph_conf.specs.Cycles.{IsCycle};
ghost use Rattle.graph_conf.specs.Keys.{all_of};
ghost use Rattle.graph_conf.specs.declared.fault.GraphFault.{GraphFault};
ghost use Rattle.graph_conf.specs.Graphs.{feed_key, run_table, run_key, nodes_from, node_tables, node_key, graph_of, graph_of_bytes};

use crate::GraphFault;
use crate::keys::{count, key_type, only_keys, out_of_range, text_in, value_at};
use crate::links::linked;
use crate::node::{NamedNode, node_of};
use crate::words::feed_named;
use nd_base::{Graph, Seq};
use std::alloc::{AllocError, Global};
use toml::value::Array;
use toml::{Table, Value};

/// The most nodes of a graph.
const MOST_NODES: usize = 32;

/// Whether the feed waits.
fn feed_key(alloc: Global, table: &Table) -> Result<bool, GraphFault>
    ensures { Gives (λ wait. wait) result (feed_key (table_view table.now)) }
{
    let Some(value) = value_at(table, "feed") else {
        return Ok(false);
    };
    match feed_named(text_in(alloc, "feed", value)?) {
        Some(wait) => Ok(wait),
        None => Err(key_type(alloc, "feed")?),
    }
}

/// Whether the feed waits, and the pool's limit, where the table `run` is given.
#[tactic(auto, unfolding(crate::specs::Graphs::run_table))]
fn run_table(alloc: Global, value: &Value) -> Result<(bool, u64), GraphFault>
    ensures gives { Gives (λ run. run) result (run_table (view value.now)) }
    ensures limit { IfOk result (λ run. run.1 ≤ 1099511627776) }
{
    let Some(table) = value.as_table() else {
        return Err(key_type(alloc, "run")?);
    };
    only_keys(alloc, table, &["feed", "pool"])?;
    let wait = feed_key(alloc, table)?;
    let limit = count(alloc, table, "pool", 0, 1_099_511_627_776, 0)?;
    Ok((wait, limit))
}

/// Whether the feed waits, and the pool's limit; without a table `run` the feed is free, and there is no limit.
fn run_key(alloc: Global, table: &Table) -> Result<(bool, u64), GraphFault>
    ensures gives { Gives (λ run. run) result (run_key (table_view table.now)) }
    ensures limit { IfOk result (λ run. run.1 ≤ 1099511627776) }
{
    match value_at(table, "run") {
        Some(value) => run_table(alloc, value),
        None => Ok((false, 0)),
    }
}

/// The items, where each is a table.
fn tables_of<'a>(alloc: Global, items: &'a Array) -> Result<Option<Vec<&'a Table>>, AllocError>
    ensures { IfOk result (λ found. option_map (λ list. map (λ t. table_view t.now) list.items) found ≡ all_of as_table (array_view items.now)) }
{
    let mut list = Vec::with_capacity(alloc, items.len())?;
    for item in items {
        match item.as_table() {
            Some(table) => list.push(table)?,
            None => return Ok(None),
        }
    }
    Ok(Some(list))
}

/// The tables of a value that is a list of at most 32 of them.
fn node_tables<'a>(alloc: Global, value: &'a Value) -> Result<Vec<&'a Table>, GraphFault>
    ensures gives { Gives (λ list. map (λ t. table_view t.now) list.items) result (node_tables (view value.now)) }
    ensures few { IfOk result (λ list. length list.items ≤ 32) }
{
    let Some(items) = value.as_array() else {
        return Err(key_type(alloc, "node")?);
    };
    let Some(tables) = tables_of(alloc, items)? else {
        return Err(key_type(alloc, "node")?);
    };
    if tables.len() > MOST_NODES {
        return Err(out_of_range(alloc, "node", tables.len() as i64)?);
    }
    Ok(tables)
}

/// The nodes of these tables.
fn nodes_of(alloc: Global, tables: &[&Table]) -> Result<Vec<NamedNode>, GraphFault>
    requires few { length tables.now ≤ 32 }
    ensures gives { Gives (λ list. list.items) result (nodes_from 1 (map (λ t. table_view t.now) tables.now)) }
    ensures len { IfOk result (λ list. length list.items ≡ length tables.now) }
    ensures sound { IfOk result (λ list. All (λ n. IsNode n.rule) list.items) }
{
    let mut nodes = Vec::with_capacity(alloc, tables.len())?;
    for table in tables {
        let number = nodes.len() as u32 + 1;
        nodes.push(node_of(alloc, table, number)?)?;
    }
    Ok(nodes)
}

/// The nodes of the list `node`; none where it is not given.
#[tactic(auto, unfolding(crate::specs::Graphs::node_key))]
fn node_key(alloc: Global, table: &Table) -> Result<Vec<NamedNode>, GraphFault>
    ensures gives { Gives (λ list. list.items) result (node_key (table_view table.now)) }
    ensures few { IfOk result (λ list. length list.items ≤ 32) }
    ensures sound { IfOk result (λ list. All (λ n. IsNode n.rule) list.items) }
{
    let Some(value) = value_at(table, "node") else {
        return Ok(Vec::new(alloc));
    };
    let tables = node_tables(alloc, value)?;
    nodes_of(alloc, &tables)
}

/// The graph of a document.
#[tactic(auto, unfolding(crate::specs::Graphs::graph_of))]
fn graph_of(alloc: Global, table: &Table) -> Result<Graph, GraphFault>
    ensures gives { Gives (λ x. x) result (graph_of (table_view table.now)) }
    ensures sound { IfOk result IsGraph }
{
    only_keys(alloc, table, &["run", "node"])?;
    let (wait, limit) = run_key(alloc, table)?;
    let named = node_key(alloc, table)?;
    let nodes = Seq::new(linked(alloc, named)?);
    Ok(Graph { wait, limit, nodes })
}

/// The graph that bytes mean, or their first fault.
fn graph_in(alloc: Global, bytes: &[u8]) -> Result<Graph, GraphFault>
    ensures exact { Gives (λ x. x) result (graph_of_bytes bytes.now) }
    ensures sound { IfOk result IsGraph }
{
    let Ok(text) = std::str::from_utf8(bytes) else {
        return Err(GraphFault::Text);
    };
    match toml::table_from_str(alloc, text) {
        Ok(table) => graph_of(alloc, &table),
        Err(fault) if fault.is_memory() => Err(GraphFault::OutOfMemory),
        Err(_) => Err(GraphFault::Text),
    }
}

/// Reads the graph that bytes mean.
///
/// # Errors
///
/// The first fault, which no other answer replaces but want of memory.
pub fn read_graph(alloc: Global, bytes: &[u8]) -> Result<Graph, GraphFault>
    ensures exact { Gives (λ x. x) result (graph_of_bytes bytes.now) }
    // The node of `Cycle` is the first that never reaches the driver.
    ensures cycle { IfErr result (λ fault. (node : ℕ) → fault ≡ GraphFault.Cycle node → IsCycle bytes.now node) }
    // Where no earlier rule is broken, such a node is refused, unless memory runs out.
    ensures refused { (node : ℕ) → IsCycle bytes.now node → Gives (λ x. x) result (Err (GraphFault.Cycle node)) }
    ensures sound { IfOk result IsGraph }
{
    graph_in(alloc, bytes)
}
