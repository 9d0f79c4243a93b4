//! What a put says of its array, from the stack.

ghost use Rattle.std.specs.Prelude.{◌≡◌, ◌<◌, length, IfOk};
ghost use Rattle.nd_base.specs.GraphRules.{IsGraph, IsStats};
ghost use Rattle.chain_plain.specs.OneThread.{measure_of_array};
ghost use Rattle.flow_journal.specs.FirstEntries.{fires_at};
ghost use Rattle.flow_journal.specs.Setting.{node as node_of};
ghost use Rattle.nd_base.specs.declared.graph.Kind.TheVariants.{Stats};
ghost use Rattle.chain_plain.specs.Content.{content};
ghost use Rattle.board_rules.specs.RunMeasures.{run_setting, run_measure, kind_measure};

use crate::source::Source;
use chain_plain::content;
use nd_base::{FrameName, Kind, Measure, NdArray, OutOfMemory, Run, StatsRule, rule_at};
use nd_stats::measure;
use std::alloc::Global;
use trig_window::trigger_fires;

/// Whether the trigger of a circular node fires at the frame of this index; no other node has one.
pub(crate) fn fires<R: Run>(source: &Source, node: u32, index: u32) -> bool
    requires graph { source.now.plan.now.graph ≡ R.graph }
    requires stack { source.now.stack.now ≡ R.stack }
    ensures { result ≡ fires_at (run_setting R.graph R.stack) node index (node_of (run_setting R.graph R.stack) node).work }
{
    let Some(rule) = rule_at(source.plan.graph.nodes.as_slice(), node) else {
        return false;
    };
    match &rule.kind {
        Kind::Circular(circular) => {
            index < source.stack.frames()
                && trigger_fires(circular, &source.stack.head(index).attrs)
        }
        Kind::Roi(_) | Kind::Stats(_) | Kind::File(_) | Kind::Scatter => false,
    }
}

/// The measure of an array.
///
/// # Errors
///
/// Only for want of memory.
fn measure_array(alloc: Global, stats: &StatsRule, array: &NdArray) -> Result<Measure, OutOfMemory>
    requires { IsStats stats.now }
    ensures { IfOk result (λ m. m ≡ measure_of_array stats.now array.now) }
{
    let id = array.head().id;
    measure(alloc, stats, id, array.kind(), array.dims(), array.bytes())
}

/// What these rules measure of the frame of this name, made anew from the stack; nothing where the stack has no such frame.
///
/// # Errors
///
/// Only for want of memory.
fn measure_frame(
    source: &Source,
    stats: &StatsRule,
    name: FrameName,
) -> Result<Option<Measure>, OutOfMemory>
    requires graph { IsGraph source.now.plan.now.graph }
    requires rule { IsStats stats.now }
    ensures { IfOk result (λ m. m ≡ kind_measure (Stats stats.now) (content source.now.plan.now.graph.nodes source.now.stack.now.arrays name)) }
{
    if name.index >= source.stack.frames() {
        return Ok(None);
    }
    let array = content(source.alloc, source.plan, source.stack, name)?;
    let numbers = measure_array(source.alloc, stats, &array)?;
    Ok(Some(numbers))
}

/// What a statistics node measures of the frame of this name, made anew from the stack; no other node measures.
///
/// # Errors
///
/// Only for want of memory.
pub(crate) fn measured<R: Run>(
    source: &Source,
    node: u32,
    name: FrameName,
) -> Result<Option<Measure>, OutOfMemory>
    requires graph { source.now.plan.now.graph ≡ R.graph }
    requires sound { IsGraph R.graph }
    requires stack { source.now.stack.now ≡ R.stack }
    ensures { IfOk result (λ m. m ≡ run_measure R.graph R.stack node name) }
{
    let Some(rule) = rule_at(source.plan.graph.nodes.as_slice(), node) else {
        return Ok(None);
    };
    match &rule.kind {
        Kind::Stats(stats) => measure_frame(source, stats, name),
        Kind::Roi(_) | Kind::Circular(_) | Kind::File(_) | Kind::Scatter => Ok(None),
    }
}
