//! The counters of a log, in one pass from its end.

ghost use Rattle.std.specs.Prelude.{◌≡◌, ◌<◌, ◌^◌, length, map, reverse, IfOk, OnOk};
ghost use Rattle.std.specs.List.{All};
ghost use Rattle.flow_journal.specs.Setting.{first_prev};
ghost use Rattle.run_report.specs.Report.{report};
ghost use Rattle.run_report.specs.Tallies.{node_at, fresh_nodes, HasRoomForCounts, HasRoomForLoads, IsOneMore, finished};
ghost use Rattle.run_report.specs.Tallied.{IsTallied};

use crate::feed::FeedTally;
use crate::reclaims::Reclaims;
use crate::tally::NodeTally;
use crate::{Counters, NodeCount};
use flow_journal::{Entry, Log};
use nd_base::{NodeRule, OutOfMemory, Plan, Seq};
use std::alloc::{AllocError, Global};

/// The node at which an entry is counted.
fn node_of(entry: &Entry) -> Option<u32>
    ensures { result ≡ node_at entry.now }
{
    match *entry {
        Entry::Emit { node, .. }
        | Entry::Accept { node, .. }
        | Entry::Full { node, .. }
        | Entry::PoolDrop { node, .. }
        | Entry::SortDrop { node, .. }
        | Entry::Save { node, .. } => Some(node),
        _ => None,
    }
}

/// The id before the first, 0 where there are no frames.
fn first_prev(ids: &[i32]) -> i64
    ensures { result ≡ first_prev ids.now }
{
    match ids {
        [] => 0,
        [first, ..] => i64::from(*first) - 1,
    }
}

/// The tallies of the driver and of these nodes, before any entry is read.
fn fresh_nodes(alloc: Global, rules: &[NodeRule]) -> Result<Vec<NodeTally>, AllocError>
    ensures { IfOk result (λ nodes. nodes.items ≡ fresh_nodes rules.now) }
{
    let mut nodes = Vec::new(alloc);
    nodes.push(NodeTally::new(false))?;
    for rule in rules {
        nodes.push(NodeTally::of_kind(&rule.kind))?;
    }
    Ok(nodes)
}

/// The counts of nodes whose tallies are done.
fn finished_nodes(
    alloc: Global,
    nodes: &[NodeTally],
    first_prev: i64,
) -> Result<Vec<NodeCount>, AllocError>
    requires { All HasRoomForCounts nodes.now }
    ensures { IfOk result (λ counts. counts.items ≡ map (finished first_prev) nodes.now) }
{
    let mut counts = Vec::new(alloc);
    for node in nodes {
        counts.push(node.finished(first_prev))?;
    }
    Ok(counts)
}

/// What is counted so far.
#[derive(Drop)]
struct Tally {
    reclaims: Reclaims,
    feed: FeedTally,
    /// Of the driver, and then of each node.
    nodes: Vec<NodeTally>,
}

impl Tally {
    /// Counts the entry before those that were counted.
    fn count(&mut self, ids: &[i32], entry: &Entry) -> Result<(), OutOfMemory>
        requires feed { HasRoomForLoads self.old.feed }
        requires nodes { All HasRoomForCounts self.old.nodes.items }
        ensures { OnOk result (IsOneMore ids.now entry.now self.old self.new) }
    {
        let stands = self.reclaims.stands(entry)?;
        self.feed.count(entry, stands);
        if let Some(node) = node_of(entry) {
            if let Some(tally) = self.nodes.get_mut(node as usize) {
                tally.count(ids, entry, stands);
            }
        }
        Ok(())
    }
}

/// How many entries there are, which is few enough for a count of them to grow.
fn entry_count(entries: &[Entry]) -> usize
    ensures count { result ≡ length entries.now }
    ensures few { result < 2 ^ 60 }
{
    entries.len()
}

/// Counts the entries of a log, from the last to the first.
fn tallied(alloc: Global, plan: &Plan, entries: &[Entry]) -> Result<Tally, OutOfMemory>
    ensures { IfOk result (IsTallied plan.now (reverse entries.now)) }
{
    entry_count(entries);
    let mut tally = Tally {
        reclaims: Reclaims::new(alloc),
        feed: FeedTally {
            loaded: 0,
            refused: 0,
            regrown: 0,
        },
        nodes: fresh_nodes(alloc, plan.graph.nodes.as_slice())?,
    };
    let ids = plan.ids.as_slice();
    for entry in entries.iter().rev() {
        tally.count(ids, entry)?;
    }
    Ok(tally)
}

/// The counters of a log over the graph and the frames of a plan.
///
/// # Errors
///
/// Where memory is refused.
pub fn counters(alloc: Global, plan: &Plan, log: &Log) -> Result<Counters, OutOfMemory>
    ensures { IfOk result (λ c. c ≡ report plan.now log.now.past) }
{
    let Tally { feed, nodes, .. } = tallied(alloc, plan, log.entries())?;
    let ids = plan.ids.as_slice();
    let first_prev = first_prev(ids);
    let driver = nodes[0].finished(first_prev);
    let counts = finished_nodes(alloc, &nodes[1..], first_prev)?;
    Ok(Counters {
        frames: ids.len() as u64,
        offered: feed.loaded + feed.refused,
        loaded: feed.loaded,
        refused: feed.refused,
        breaks: driver.breaks,
        regrown: feed.regrown,
        nodes: Seq::new(counts),
    })
}
