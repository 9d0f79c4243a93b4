//! The files of one node.

ghost use Rattle.std.specs.Prelude.{◌≡◌, ◌<◌, ◌≤◌, Some, length, string_bytes, All, IfOk};
ghost use Rattle.std.specs.List.{flat_map, range_with_len};
ghost use Rattle.nd_base.specs.Forms.{longest_of};
ghost use Rattle.nd_base.specs.GraphRules.{rule_at};
ghost use Rattle.nd_base.specs.declared.graph.Kind.TheVariants.{File, Stats};
ghost use Rattle.cdf_write.specs.Layout.{header, layout};
ghost use Rattle.cdf_write.specs.Lengths.{length_of};
ghost use Rattle.cdf_write.specs.Writable.{IsWritable};
ghost use Rattle.flow_journal.specs.Unsaved.{standing_saves};
ghost use Rattle.graph_files.specs.OutFiles.{file_shape, group_name, stats_name};
ghost use Rattle.flow_saver.specs.HistoryFiles.{kind_rows};
ghost use Rattle.data_check.specs.ComparedFiles.{file_of, group_files, IsFound, HasFailed, IsFirstUnread, TellsFault, IsCompareCause};
ghost use Rattle.data_check.specs.Fronts.{IsVerdict};
ghost use Rattle.data_check.specs.Histories.{arrays_at};

use crate::difference::Difference;
use crate::fault::CompareFault;
use crate::front::Front;
use crate::history::History;
use crate::rows::{RowKind, go_on};
use cdf_write::{TooLarge, file_length, header_bytes};
use edge_traits::Library;
use nd_base::{FileRule, FileShape, NodeRule, OutOfMemory, StatsRule};
use std::alloc::{AllocError, Global};

/// The name of a group's file.
fn group_name(alloc: Global, prefix: &str, node: &str, group: u32) -> Result<String, AllocError>
    ensures { IfOk result (λ name. string_bytes name ≡ group_name prefix.now node.now group) }
{
    format!(in alloc; "{prefix}{node}_{group:03}.nc")
}

/// The name of the file of a statistics node.
fn rows_name(alloc: Global, prefix: &str, node: &str) -> Result<String, AllocError>
    ensures { IfOk result (λ name. string_bytes name ≡ stats_name prefix.now node.now) }
{
    format!(in alloc; "{prefix}{node}.txt")
}

/// The header of a file of so many rows, where such a file isn't too long.
///
/// # Errors
///
/// Only for want of memory.
fn header_of(alloc: Global, shape: &FileShape, rows: u32) -> Result<Vec<u8>, OutOfMemory>
    requires writable { IsWritable shape.now }
    requires some { 1 ≤ rows }
    requires fits { length_of shape.now rows ≤ longest_of shape.now.form }
    ensures { IfOk result (λ v. v.items ≡ header shape.now (Some rows)) }
{
    match header_bytes(alloc, shape, Some(rows), u64::from(rows)) {
        Ok(bytes) => Ok(bytes),
        Err(TooLarge::OutOfMemory) => Err(OutOfMemory),
        Err(TooLarge::FileTooLarge { .. }) => unreachable!(),
    }
}

/// Whether a file is that of a group: of the arrays that go out of a node of this shape at these positions. Where its size differs, nothing of it is
/// read.
///
/// # Errors
///
/// `Failed` where the library failed, as it does where the file isn't there: its count of faults rose. And `OutOfMemory`.
fn is_group<L: Library>(
    alloc: Global,
    library: &mut L,
    history: &History,
    node: u32,
    shape: &FileShape,
    file: &str,
    positions: &[u32],
) -> Result<bool, CompareFault>
    requires shape { shape.now ≡ file_shape history.now.graph history.now.stack node }
    requires some { 1 ≤ length positions.now }
    requires few { length positions.now ≤ 65536 }
    requires frames { All (λ k. k < length history.now.stack.arrays) positions.now }
    requires fits { length_of shape.now (length positions.now) ≤ longest_of shape.now.form }
    ensures files { L.holds library.new ≡ L.holds library.old }
    ensures verdict { IfOk result (λ same. IsVerdict same (L.holds library.old) file.now (layout shape.now (arrays_at history.now node positions.now))) }
    ensures cause { IsCompareCause result (L.faults library.old) (L.faults library.new) }
    ensures unread { TellsFault result (HasFailed (L.faults_at library.old) (L.faults_at library.new) file.now) (L.faults_at library.old)
        (L.faults_at library.new) }
{
    let rows = positions.len() as u32;
    let mut front = Front::of(library, file)?;
    history.known();
    if u128::from(front.size()) != file_length(shape, u64::from(rows)) {
        return Ok(false);
    }
    let header = header_of(alloc, shape, rows)?;
    if !front.goes_on(library, &header)? {
        return Ok(false);
    }
    go_on(
        alloc,
        library,
        history,
        node,
        RowKind::Layout(shape),
        positions,
        &mut front,
    )
}

/// The first group of a file node whose file isn't as the run writes it.
///
/// # Errors
///
/// `Failed` where the library failed, as it does where a file isn't there: its count of faults rose. And `OutOfMemory`.
pub(crate) fn first_group<L: Library>(
    alloc: Global,
    library: &mut L,
    history: &History,
    node: u32,
    rule: &NodeRule,
    file: &FileRule,
) -> Result<Option<Difference>, CompareFault>
    requires rule { rule_at history.now.graph.nodes node ≡ Some rule.now }
    requires kind { rule.now.kind ≡ File file.now }
    ensures files { L.holds library.new ≡ L.holds library.old }
    ensures found { IfOk result (λ found. IsFound (L.holds library.old)
        (flat_map (group_files history.now.graph history.now.stack history.now.prefix history.now.past node rule.now)
        (range_with_len 0 (length (standing_saves node history.now.past)))) found) }
    ensures cause { IsCompareCause result (L.faults library.old) (L.faults library.new) }
    ensures unread { TellsFault result (IsFirstUnread (L.holds library.old) (L.faults_at library.old) (L.faults_at library.new)
        (flat_map (group_files history.now.graph history.now.stack history.now.prefix history.now.past node rule.now)
        (range_with_len 0 (length (standing_saves node history.now.past))))) (L.faults_at library.old) (L.faults_at library.new) }
{
    let shape = history.shape(alloc, node)?;
    let positions = history.positions(alloc, node, rule)?;
    let mut group = 0;
    let mut rest = positions.as_slice();
    while !rest.is_empty() {
        let (part, others) = rest.split_at(rest.len().min(file.count as usize));
        let name = group_name(alloc, history.prefix(), rule.name.text(), group)?;
        if !is_group(alloc, library, history, node, &shape, name.as_str(), part)? {
            return Ok(Some(Difference { node, group }));
        }
        rest = others;
        group += 1;
    }
    Ok(None)
}

/// The file of a statistics node, where it isn't as the run writes it.
///
/// # Errors
///
/// `Failed` where the library failed, as it does where the file isn't there: its count of faults rose. And `OutOfMemory`.
pub(crate) fn rows_difference<L: Library>(
    alloc: Global,
    library: &mut L,
    history: &History,
    node: u32,
    rule: &NodeRule,
    stats: &StatsRule,
) -> Result<Option<Difference>, CompareFault>
    requires rule { rule_at history.now.graph.nodes node ≡ Some rule.now }
    requires kind { rule.now.kind ≡ Stats stats.now }
    ensures files { L.holds library.new ≡ L.holds library.old }
    ensures found { IfOk result (λ found. IsFound (L.holds library.old) (file_of node 0 (stats_name history.now.prefix rule.now.name)
        (kind_rows history.now.graph history.now.stack history.now.past node rule.now.kind)) found) }
    ensures cause { IsCompareCause result (L.faults library.old) (L.faults library.new) }
    ensures unread { TellsFault result (IsFirstUnread (L.holds library.old) (L.faults_at library.old) (L.faults_at library.new)
        (file_of node 0 (stats_name history.now.prefix rule.now.name)
        (kind_rows history.now.graph history.now.stack history.now.past node rule.now.kind))) (L.faults_at library.old) (L.faults_at library.new) }
{
    let name = rows_name(alloc, history.prefix(), rule.name.text())?;
    let positions = history.positions(alloc, node, rule)?;
    let mut front = Front::of(library, name.as_str())?;
    let same = go_on(
        alloc,
        library,
        history,
        node,
        RowKind::Text(stats),
        &positions,
        &mut front,
    )?;
    if same && front.is_at_end() {
        Ok(None)
    } else {
        Ok(Some(Difference { node, group: 0 }))
    }
}
