//! The first file that isn't as the run writes it.

ghost use Rattle.std.specs.Prelude.{◌≡◌, None, IfOk};
ghost use Rattle.std.specs.Str.{bytes_eq};
ghost use Rattle.nd_base.specs.GraphRules.{IsGraph};
ghost use Rattle.nd_stack.specs.KeptStacks.{IsKeptStack};
ghost use Rattle.chain_plain.specs.Plans.{plan_of};
ghost use Rattle.graph_conf.specs.Loads.{limit_fault};
ghost use Rattle.board_rules.specs.RunMeasures.{run_setting};
ghost use Rattle.run_laws.specs.Results.{IsFinishedRun};
ghost use Rattle.data_check.specs.ComparedFiles.{log_node, node_files, compared_files, IsFound, IsFirstUnread, TellsFault, IsCompareCause};

use crate::difference::Difference;
use crate::fault::CompareFault;
use crate::files::{first_group, rows_difference};
use crate::history::History;
use edge_traits::Library;
use flow_journal::Log;
use nd_base::{Kind, Plan, Stack};
use std::alloc::Global;

/// Whether the rows of a node of this name would have the name of the log.
fn has_log_name(name: &str) -> bool
    ensures { result ≡ bytes_eq name.now log_node }
{
    name == "log"
}

/// The first file of a node that isn't as the run writes it.
fn difference_at<L: Library>(
    alloc: Global,
    library: &mut L,
    history: &History,
    node: u32,
) -> Result<Option<Difference>, CompareFault>
    ensures files { L.holds library.new ≡ L.holds library.old }
    ensures found { IfOk result (λ found. IsFound (L.holds library.old)
        (node_files history.now.graph history.now.stack history.now.prefix history.now.past node) found) }
    ensures cause { IsCompareCause result (L.faults library.old) (L.faults library.new) }
    ensures unread { TellsFault result (IsFirstUnread (L.holds library.old) (L.faults_at library.old) (L.faults_at library.new)
        (node_files history.now.graph history.now.stack history.now.prefix history.now.past node)) (L.faults_at library.old) (L.faults_at library.new) }
{
    let Some(rule) = history.rule(node) else {
        return Ok(None);
    };
    match &rule.kind {
        Kind::File(file) => first_group(alloc, library, history, node, rule, file),
        Kind::Stats(_) if has_log_name(rule.name.text()) => Ok(None),
        Kind::Stats(stats) => rows_difference(alloc, library, history, node, rule, stats),
        Kind::Roi(_) | Kind::Circular(_) | Kind::Scatter => Ok(None),
    }
}

/// Compares the files of a finished run with those of a library whose names begin with the prefix: node by node in the graph's order, and the groups of
/// a file node in theirs. Answers the first file that isn't as the run writes it, or None where each is. The rows of a statistics node named `log`
/// aren't looked at: the log's text has their name.
///
/// Of a group's file whose size differs nothing is read. No more than one array with its row is in memory beside the stack.
///
/// # Errors
///
/// `Failed` where the library failed, as it does where a file isn't there: its count of faults rose. And `OutOfMemory`.
pub fn first_difference<L: Library>(
    alloc: Global,
    library: &mut L,
    prefix: &str,
    plan: &Plan,
    stack: &Stack,
    log: &Log,
) -> Result<Option<Difference>, CompareFault>
    requires graph { IsGraph plan.now.graph }
    requires plan { plan.now ≡ plan_of plan.now.graph stack.now }
    requires kept { IsKeptStack stack.now }
    requires within { limit_fault plan.now.graph stack.now ≡ None }
    requires run { IsFinishedRun (run_setting plan.now.graph stack.now) log.now.past }
    ensures files { L.holds library.new ≡ L.holds library.old }

    // None where all are the same, and else the first that isn't.
    ensures found { IfOk result (λ found. IsFound (L.holds library.old) (compared_files plan.now.graph stack.now prefix.now log.now.past) found) }

    // A fault of the library only where its count rose.
    ensures cause { IsCompareCause result (L.faults library.old) (L.faults library.new) }

    // At which file that was: each before it is as the run writes it.
    ensures unread { TellsFault result (IsFirstUnread (L.holds library.old) (L.faults_at library.old) (L.faults_at library.new)
        (compared_files plan.now.graph stack.now prefix.now log.now.past)) (L.faults_at library.old) (L.faults_at library.new) }
{
    let history = History {
        plan,
        stack,
        log,
        prefix,
    };
    for node in 1..history.nodes() + 1 {
        let found = difference_at(alloc, library, &history, node)?;
        if found.is_some() {
            return Ok(found);
        }
    }
    Ok(None)
}
