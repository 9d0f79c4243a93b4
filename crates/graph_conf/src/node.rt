//! A node's table.
ghost use Rattle.std.specs.Prelude.{◌≡◌, ◌≤◌, false, IsTrue, IfOk};
ghost use Rattle.toml.specs.View.{table_view};
ghost use Rattle.nd_base.specs.GraphRules.{IsNode, IsBetween, is_node_name};
ghost use Rattle.graph_conf.specs.Answers.{Gives};
ghost use Rattle.graph_conf.specs.KindNames.{kind_word};
ghost use Rattle.graph_conf.specs.Nodes.{is_parallel, name_key, kind_key, input_key, threads_key, sort_key, sort_time_key, node_of};

use crate::GraphFault;
use crate::keys::{count, key_type, name_of, only_keys, present, text_in};
use crate::kind::KindName;
use crate::rules::kind_rule;
use crate::words::{is_node_name, keys_of, kind_named};
use nd_base::{Name, NodeRule};
use std::alloc::Global;
use std::marker::Model;
use toml::Table;

/// A node whose input is still a name; its rule has 0 there.
#[derive(Debug, Drop)]
pub(crate) struct NamedNode {
    pub(crate) input: Name,
    pub(crate) rule: NodeRule,
}

impl Model for NamedNode {
    ghost use Rattle.std.specs.Coded.{codes};
    ghost use Rattle.nd_base.specs.TreeCodes.{tree_code};
    ghost use Rattle.graph_conf.specs.Named.{Named};

    ghost Value = { Named };

    ghost coded = { Prim.hlevel (codes, tree_code) };

    ghost view = { λ n. record { input = n.input; rule = n.rule } };
}

impl NamedNode {
    /// The node's name.
    pub(crate) fn name(&self) -> &str
        ensures { result.now ≡ self.now.rule.name }
    {
        self.rule.name.text()
    }
}

/// The node's name.
fn name_key(alloc: Global, table: &Table) -> Result<Name, GraphFault>
    ensures gives { Gives (λ name. name) result (name_key (table_view table.now)) }
    ensures sound { IfOk result (λ name. IsTrue (is_node_name name)) }
{
    let text = text_in(alloc, "name", present(alloc, table, "name")?)?;
    if !is_node_name(text) {
        return Err(key_type(alloc, "name")?);
    }
    Ok(name_of(alloc, text)?)
}

/// The kind of node `node`.
fn kind_key(alloc: Global, table: &Table, node: u32) -> Result<KindName, GraphFault>
    ensures { Gives kind_word result (kind_key node (table_view table.now)) }
{
    let word = text_in(alloc, "kind", present(alloc, table, "kind")?)?;
    match kind_named(word) {
        Some(kind) => Ok(kind),
        None => Err(GraphFault::UnknownKind { node }),
    }
}

/// The name of the node's input.
fn input_key(alloc: Global, table: &Table) -> Result<Name, GraphFault>
    ensures { Gives (λ name. name) result (input_key (table_view table.now)) }
{
    let text = text_in(alloc, "input", present(alloc, table, "input")?)?;
    Ok(name_of(alloc, text)?)
}

/// Nodes of this kind may have several threads, and sort.
fn is_parallel(kind: KindName) -> bool
    ensures { result ≡ is_parallel (kind_word kind) }
{
    matches!(kind, KindName::Roi | KindName::Stats)
}

/// The threads of node `node`.
fn threads_key(alloc: Global, table: &Table, node: u32, kind: KindName) -> Result<u32, GraphFault>
    ensures gives { Gives (λ n. n) result (threads_key node (kind_word kind) (table_view table.now)) }
    ensures bound { IfOk result (IsBetween 1 16) }
    ensures one { IfOk result (λ n. is_parallel (kind_word kind) ≡ false → n ≡ 1) }
{
    let threads = count(alloc, table, "threads", 1, 16, 1)? as u32;
    if threads > 1 && !is_parallel(kind) {
        return Err(GraphFault::Threads(node));
    }
    Ok(threads)
}

/// The size of the node's sort list.
fn sort_key(alloc: Global, table: &Table, kind: KindName) -> Result<u32, GraphFault>
    ensures gives { Gives (λ n. n) result (sort_key (kind_word kind) (table_view table.now)) }
    ensures bound { IfOk result (λ n. n ≤ 65535) }
    ensures none { IfOk result (λ n. is_parallel (kind_word kind) ≡ false → n ≡ 0) }
{
    if !is_parallel(kind) {
        return Ok(0);
    }
    Ok(count(alloc, table, "sort", 0, 65_535, 0)? as u32)
}

/// How many ticks a result waits for those before it.
fn sort_time_key(alloc: Global, table: &Table, kind: KindName) -> Result<u64, GraphFault>
    ensures gives { Gives (λ n. n) result (sort_time_key (kind_word kind) (table_view table.now)) }
    ensures bound { IfOk result (λ n. n ≤ 2147483647) }
{
    if !is_parallel(kind) {
        return Ok(100);
    }
    count(alloc, table, "sort_time", 0, 2_147_483_647, 100)
}

/// The node of a table, which is node `node`.
#[tactic(auto, unfolding(crate::specs::Nodes::node_of))]
pub(crate) fn node_of(alloc: Global, table: &Table, node: u32) -> Result<NamedNode, GraphFault>
    ensures gives { Gives (λ x. x) result (node_of node (table_view table.now)) }
    ensures sound { IfOk result (λ n. IsNode n.rule) }
{
    let name = name_key(alloc, table)?;
    let kind = kind_key(alloc, table, node)?;
    only_keys(alloc, table, keys_of(kind))?;
    let input = input_key(alloc, table)?;
    let queue = count(alloc, table, "queue", 1, 65_535, 20)? as u32;
    let threads = threads_key(alloc, table, node, kind)?;
    let sort = sort_key(alloc, table, kind)?;
    let sort_time = sort_time_key(alloc, table, kind)?;
    let kind = kind_rule(alloc, kind, table)?;
    let rule = NodeRule {
        name,
        kind,
        input: 0,
        queue,
        threads,
        sort,
        sort_time,
    };
    Ok(NamedNode { input, rule })
}
