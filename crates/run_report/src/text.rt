//! The text of a report.

ghost use Rattle.std.specs.Prelude.{◌≡◌, ◌++◌, IfOk, OnOk, string_bytes};
ghost use Rattle.run_report.specs.Text.{driver_text, offers_text, drops_text, outs_text, node_line, node_lines, report_text};

use crate::{Counters, NodeCount};
use nd_base::{Graph, NodeRule, OutOfMemory};
use std::alloc::{AllocError, Global};
use std::fmt::Write;

/// Appends the numbers of the driver.
fn push_driver(text: &mut String, c: &Counters) -> Result<(), AllocError>
    ensures { OnOk result (string_bytes text.new ≡ string_bytes text.old ++ driver_text c.now) }
{
    let Counters {
        offered,
        loaded,
        refused,
        breaks,
        ..
    } = c;
    write!(
        text,
        "driver offered {offered} loaded {loaded} refused {refused} breaks {breaks}"
    )
}

/// Appends what came to a node of this name.
fn push_offers(text: &mut String, name: &str, n: &NodeCount) -> Result<(), AllocError>
    ensures { OnOk result (string_bytes text.new ≡ string_bytes text.old ++ offers_text name.now n.now) }
{
    let NodeCount {
        offered,
        accepted,
        ..
    } = n;
    write!(text, "node {name} offered {offered} accepted {accepted}")
}

/// Appends what a node dropped.
fn push_drops(text: &mut String, n: &NodeCount) -> Result<(), AllocError>
    ensures { OnOk result (string_bytes text.new ≡ string_bytes text.old ++ drops_text n.now) }
{
    let NodeCount {
        full,
        pool,
        sort,
        ..
    } = n;
    write!(text, " full {full} pool {pool} sort {sort}")
}

/// Appends what went out of a node.
fn push_outs(text: &mut String, n: &NodeCount) -> Result<(), AllocError>
    ensures { OnOk result (string_bytes text.new ≡ string_bytes text.old ++ outs_text n.now) }
{
    let NodeCount { out, breaks, .. } = n;
    write!(text, " out {out} breaks {breaks}")
}

/// Appends the line of a node of this name.
fn push_node(text: &mut String, name: &str, n: &NodeCount) -> Result<(), AllocError>
    ensures { OnOk result (string_bytes text.new ≡ string_bytes text.old ++ node_line name.now n.now) }
{
    push_offers(text, name, n)?;
    push_drops(text, n)?;
    push_outs(text, n)?;
    text.push_str("\n")
}

/// Appends the lines of these nodes.
fn push_nodes(text: &mut String, rules: &[NodeRule], counts: &[NodeCount]) -> Result<(), AllocError>
    ensures { OnOk result (string_bytes text.new ≡ string_bytes text.old ++ node_lines rules.now counts.now) }
{
    for (rule, count) in rules.iter().zip(counts) {
        push_node(text, rule.name.text(), count)?;
    }
    Ok(())
}

/// The text of a report: the number of frames, the driver, each node in the graph's order, and the grants that
/// had their storage made again.
///
/// # Errors
///
/// Where memory is refused.
pub fn report_text(alloc: Global, graph: &Graph, c: &Counters) -> Result<String, OutOfMemory>
    ensures { IfOk result (λ text. string_bytes text ≡ report_text graph.now c.now) }
{
    let frames = c.frames;
    let mut text = format!(in alloc; "frames {frames}\n")?;
    push_driver(&mut text, c)?;
    text.push_str("\n")?;
    push_nodes(&mut text, graph.nodes.as_slice(), c.nodes.as_slice())?;
    let regrown = c.regrown;
    write!(text, "regrown {regrown}\n")?;
    Ok(text)
}
