//! The files of the statistics nodes: a row for each array.

ghost use Rattle.std.specs.Prelude.{◌≡◌, ◌<◌, ◌∷◌, [], ℕ, Some, length, IfOk, OnOk, OnErr, string_bytes};
ghost use Rattle.nd_base.specs.GraphRules.{IsStats, rule_at};
ghost use Rattle.nd_base.specs.declared.graph.Kind.TheVariants.{Stats};
ghost use Rattle.edge_traits.specs.Files.{Stands};
ghost use Rattle.chain_plain.specs.Content.{IsContent};
ghost use Rattle.chain_plain.specs.OneThread.{arrays_out};
ghost use Rattle.file_out.specs.Saving.{IsSaveCause};
ghost use Rattle.graph_files.specs.OutFiles.{stats_name};
ghost use Rattle.plain_saver.specs.Saved.{rows_of};
ghost use Rattle.plain_saver.specs.BegunRows.{IsRowsFileBegun, MayBeginRowsFile, AreRowsBegun, AreRowsTouched};

use crate::source::Source;
use edge_traits::Shelf;
use file_out::SaveFault;
use nd_base::{Kind, NodeRule, OutOfMemory, StatsRule};
use nd_stats::{measure, row_text};
use std::alloc::{AllocError, Global};

/// The name of the file of a statistics node.
pub(crate) fn rows_name(alloc: Global, prefix: &str, node: &str) -> Result<String, AllocError>
    ensures { IfOk result (λ name. string_bytes name ≡ stats_name prefix.now node.now) }
{
    format!(in alloc; "{prefix}{node}.txt")
}

/// The row of the array that goes out of a statistics node at a position, which has these samples.
pub(crate) fn row_of(
    alloc: Global,
    source: &Source,
    node: u32,
    rule: &StatsRule,
    index: u32,
    samples: &[u8],
) -> Result<String, OutOfMemory>
    requires rule { IsStats rule.now }
    requires frame { index < length source.now.stack.arrays }
    requires content { IsContent source.now.graph source.now.stack (record { maker = node; index = index }) samples.now }
    ensures { IfOk result (λ text. string_bytes text ≡ rows_of rule.now (arrays_out source.now.graph.nodes source.now.stack.arrays node (index ∷ []))) }
{
    let maker = source.maker(node);
    let id = source.head(index).id;
    let measured = measure(alloc, rule, id, maker.kind, maker.dims.as_slice(), samples)?;
    row_text(alloc, &measured)
}

/// Begins the file of a node of this kind and name, where it is a statistics node.
fn begin_node<K: Shelf>(
    alloc: Global,
    shelf: &mut K,
    prefix: &str,
    rule: &NodeRule,
) -> Result<(), SaveFault>
    ensures ok { OnOk result (IsRowsFileBegun prefix.now rule.now (K.held shelf.old) (K.held shelf.new)) }
    ensures err { OnErr result (MayBeginRowsFile prefix.now rule.now (K.held shelf.old) (K.held shelf.new)) }
    ensures cause { IsSaveCause result (K.faults shelf.old) (K.faults shelf.new) }
{
    match &rule.kind {
        Kind::Stats(_) => {
            let name = rows_name(alloc, prefix, rule.name.text())?;
            shelf.create(name.as_str())?;
            Ok(())
        }
        Kind::Roi(_) | Kind::Circular(_) | Kind::File(_) | Kind::Scatter => Ok(()),
    }
}

/// Begins the files of all statistics nodes, in the graph's order.
pub(crate) fn begin_rows<K: Shelf>(
    alloc: Global,
    shelf: &mut K,
    prefix: &str,
    source: &Source,
) -> Result<(), SaveFault>
    ensures ok { OnOk result (AreRowsBegun source.now.graph prefix.now (K.held shelf.old) (K.held shelf.new)) }
    ensures err { OnErr result (AreRowsTouched source.now.graph prefix.now (K.held shelf.old) (K.held shelf.new)) }
    ensures cause { IsSaveCause result (K.faults shelf.old) (K.faults shelf.new) }
{
    let rules = source.rules();
    for place in 0..rules.len() {
        begin_node(alloc, shelf, prefix, &rules[place])?;
    }
    Ok(())
}

/// Ends the file of a node of this kind and name, where it is a statistics node.
fn finish_node<K: Shelf>(
    alloc: Global,
    shelf: &mut K,
    prefix: &str,
    rule: &NodeRule,
) -> Result<(), SaveFault>
    requires { (r : StatsRule) → rule.now.kind ≡ Stats r → Stands (K.held shelf.old) (stats_name prefix.now rule.now.name) }
    ensures still { K.held shelf.new ≡ K.held shelf.old }
    ensures cause { IsSaveCause result (K.faults shelf.old) (K.faults shelf.new) }
{
    match &rule.kind {
        Kind::Stats(_) => {
            let name = rows_name(alloc, prefix, rule.name.text())?;
            shelf.finish(name.as_str())?;
            Ok(())
        }
        Kind::Roi(_) | Kind::Circular(_) | Kind::File(_) | Kind::Scatter => Ok(()),
    }
}

/// Ends the files of all statistics nodes, in the graph's order. Their bytes stay.
pub(crate) fn finish_rows<K: Shelf>(
    alloc: Global,
    shelf: &mut K,
    prefix: &str,
    source: &Source,
) -> Result<(), SaveFault>
    requires { (v : ℕ) (n : NodeRule) (r : StatsRule) → rule_at source.now.graph.nodes v ≡ Some n → n.kind ≡ Stats r
        → Stands (K.held shelf.old) (stats_name prefix.now n.name) }
    ensures still { K.held shelf.new ≡ K.held shelf.old }
    ensures cause { IsSaveCause result (K.faults shelf.old) (K.faults shelf.new) }
{
    let rules = source.rules();
    for place in 0..rules.len() {
        finish_node(alloc, shelf, prefix, &rules[place])?;
    }
    Ok(())
}
