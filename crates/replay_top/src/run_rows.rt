//! The files that a run writes once the groups of its file nodes stand: the rows of its statistics nodes, and the text of its log.

ghost use Rattle.std.specs.Prelude.{◌≡◌, ◌++◌, ◌<◌, ◌≤◌, true, length, reverse, take, All, IfOk, OnOk, OnErr};
ghost use Rattle.std.specs.List.{flat_map};
ghost use Rattle.nd_base.specs.GraphRules.{IsGraph};
ghost use Rattle.edge_traits.specs.Files.{with_file};
ghost use Rattle.file_out.specs.Saving.{IsBegun, IsSaveCause};
ghost use Rattle.nd_stats.specs.Row.{row};
ghost use Rattle.flow_journal.specs.TextFaults.{Fits};
ghost use Rattle.graph_files.specs.BegunFiles.{AreBegun};
ghost use Rattle.graph_files.specs.OutFiles.{stats_name, with_files};
ghost use Rattle.replay_top.specs.MeasuredFiles.{measured_rows, measured_files};
ghost use Rattle.replay_top.specs.LogFiles.{log_name, log_text, log_files};

use board_rules::Measures;
use edge_traits::Shelf;
use file_out::SaveFault;
use flow_journal::{Log, write_text};
use nd_base::{Graph, Kind, Measure, NodeRule, OutOfMemory};
use nd_stats::row_text;
use std::alloc::Global;
use tool_commands::save_text;

/// How many bytes of rows are enough for one append.
const ENOUGH: usize = 65_536;

/// Gathers the rows of the first measures, and no more once they are enough for one append. Answers how many.
fn gather_rows(
    alloc: Global,
    measures: &[Measure],
    rows: &mut Vec<u8>,
) -> Result<usize, OutOfMemory>
    requires some { 0 < length measures.now }
    ensures some { IfOk result (λ n. 1 ≤ n) }
    ensures most { IfOk result (λ n. n ≤ length measures.now) }
    ensures rows { IfOk result (λ n. rows.new.items ≡ flat_map row (take n measures.now)) }
{
    rows.clear();
    for (count, measure) in measures.iter().enumerate() {
        if rows.len() >= ENOUGH {
            return Ok(count);
        }
        let row = row_text(alloc, measure)?;
        rows.extend_from_slice(row.as_bytes())?;
    }
    Ok(measures.len())
}

/// Writes the rows of these measures under a name. The file is there also where it has no row.
fn save_measures<K: Shelf>(
    alloc: Global,
    shelf: &mut K,
    name: &str,
    measures: &[Measure],
) -> Result<(), SaveFault>
    ensures ok { OnOk result (K.held shelf.new ≡ with_file (K.held shelf.old) name.now (flat_map row measures.now)) }
    ensures err { OnErr result (IsBegun (K.held shelf.old) name.now (flat_map row measures.now) (K.held shelf.new)) }
    ensures cause { IsSaveCause result (K.faults shelf.old) (K.faults shelf.new) }
{
    shelf.create(name)?;
    let mut rows = Vec::new(alloc);
    let mut done = 0;
    while done < measures.len() {
        let count = gather_rows(alloc, &measures[done..], &mut rows)?;
        shelf.append(name, &rows)?;
        done += count;
    }
    shelf.finish(name)?;
    Ok(())
}

/// Writes the rows of a statistics node of this name.
fn save_stats_rows<K: Shelf>(
    alloc: Global,
    shelf: &mut K,
    prefix: &str,
    node: &str,
    measures: &[Measure],
) -> Result<(), SaveFault>
    ensures ok { OnOk result (K.held shelf.new ≡ with_file (K.held shelf.old) (stats_name prefix.now node.now) (flat_map row measures.now)) }
    ensures err { OnErr result (IsBegun (K.held shelf.old) (stats_name prefix.now node.now) (flat_map row measures.now) (K.held shelf.new)) }
    ensures cause { IsSaveCause result (K.faults shelf.old) (K.faults shelf.new) }
{
    let file = format!(in alloc; "{prefix}{node}.txt")?;
    save_measures(alloc, shelf, file.as_str(), measures)
}

/// Writes the rows of a node of this rule, where it is a statistics node.
fn save_node_rows<K: Shelf>(
    alloc: Global,
    shelf: &mut K,
    prefix: &str,
    rule: &NodeRule,
    measures: &[Measure],
) -> Result<(), SaveFault>
    ensures ok { OnOk result (K.held shelf.new ≡ with_files (K.held shelf.old) (measured_rows prefix.now rule.now measures.now)) }
    ensures err { OnErr result (AreBegun (K.held shelf.old) (measured_rows prefix.now rule.now measures.now) (K.held shelf.new)) }
    ensures cause { IsSaveCause result (K.faults shelf.old) (K.faults shelf.new) }
{
    match &rule.kind {
        Kind::Stats(_) => save_stats_rows(alloc, shelf, prefix, rule.name.text(), measures),
        Kind::Roi(_) | Kind::Circular(_) | Kind::File(_) | Kind::Scatter => Ok(()),
    }
}

/// Writes the rows of all statistics nodes, in the graph's order.
fn save_rows<K: Shelf>(
    alloc: Global,
    shelf: &mut K,
    prefix: &str,
    graph: &Graph,
    measures: &Measures,
) -> Result<(), SaveFault>
    requires graph { IsGraph graph.now }
    requires measures { length measures.now ≡ length graph.now.nodes }
    ensures ok { OnOk result (K.held shelf.new ≡ with_files (K.held shelf.old) (measured_files prefix.now graph.now.nodes measures.now)) }
    ensures err { OnErr result (AreBegun (K.held shelf.old) (measured_files prefix.now graph.now.nodes measures.now) (K.held shelf.new)) }
    ensures cause { IsSaveCause result (K.faults shelf.old) (K.faults shelf.new) }
{
    let rules = graph.nodes.as_slice();
    for place in 0..rules.len() {
        save_node_rows(
            alloc,
            shelf,
            prefix,
            &rules[place],
            measures.of(place as u32 + 1),
        )?;
    }
    Ok(())
}

/// Writes the log's text.
fn save_log<K: Shelf>(
    alloc: Global,
    shelf: &mut K,
    prefix: &str,
    log: &Log,
) -> Result<(), SaveFault>
    ensures ok { OnOk result (K.held shelf.new ≡ with_file (K.held shelf.old) (log_name prefix.now) (log_text log.now.past)) }
    ensures fits { OnOk result (All Fits (reverse log.now.past)) }
    ensures err { OnErr result (IsBegun (K.held shelf.old) (log_name prefix.now) (log_text log.now.past) (K.held shelf.new)) }
    ensures cause { IsSaveCause result (K.faults shelf.old) (K.faults shelf.new) }
{
    let name = format!(in alloc; "{prefix}log.txt")?;
    let text = write_text(alloc, log)?;
    save_text(shelf, name.as_str(), text.as_str())
}

/// Writes the rows of the statistics nodes, and then the log's text where `logs` says so.
pub(crate) fn save_later<K: Shelf>(
    alloc: Global,
    shelf: &mut K,
    prefix: &str,
    graph: &Graph,
    measures: &Measures,
    log: &Log,
    logs: bool,
) -> Result<(), SaveFault>
    requires graph { IsGraph graph.now }
    requires measures { length measures.now ≡ length graph.now.nodes }
    ensures ok { OnOk result (K.held shelf.new
        ≡ with_files (K.held shelf.old) (measured_files prefix.now graph.now.nodes measures.now ++ log_files logs prefix.now log.now.past)) }
    ensures fits { OnOk result (logs ≡ true → All Fits (reverse log.now.past)) }
    ensures err { OnErr result
        (AreBegun (K.held shelf.old) (measured_files prefix.now graph.now.nodes measures.now ++ log_files logs prefix.now log.now.past) (K.held shelf.new)) }
    ensures cause { IsSaveCause result (K.faults shelf.old) (K.faults shelf.new) }
{
    save_rows(alloc, shelf, prefix, graph, measures)?;
    if logs {
        save_log(alloc, shelf, prefix, log)?;
    }
    Ok(())
}
