//! The rows of a node's file.

ghost use Rattle.std.specs.Prelude.{◌≡◌, ◌<◌, ◌++◌, ◌∷◌, [], ℕ, List, length, All, IfOk};
ghost use Rattle.std.specs.List.{flat_map};
ghost use Rattle.nd_base.specs.GraphRules.{IsStats};
ghost use Rattle.nd_stats.specs.Row.{row};
ghost use Rattle.chain_plain.specs.OneThread.{measure_of_array};
ghost use Rattle.data_check.specs.ComparedFiles.{HasFailed, TellsFault, IsCompareCause};
ghost use Rattle.data_check.specs.Fronts.{HasFront, GoesOn};
ghost use Rattle.data_check.specs.Histories.{arrays_at};
ghost use Rattle.data_check.specs.Rows.{row_by, IsRowKind};

use crate::fault::CompareFault;
use crate::front::Front;
use crate::history::History;
use cdf_write::row_bytes;
use edge_traits::Library;
use nd_base::{FileShape, NdArray, OutOfMemory, StatsRule};
use nd_stats::{measure, row_text};
use std::alloc::Global;

/// What the row of an array is.
#[derive(Clone, Copy)]
pub(crate) enum RowKind<'a> {
    /// Its bytes in the layout of files of this shape.
    Layout(&'a FileShape),
    /// The text of its measure by this rule.
    Text(&'a StatsRule),
}

/// The text of an array's measure.
///
/// # Errors
///
/// Only for want of memory.
fn text_of(alloc: Global, rule: &StatsRule, array: &NdArray) -> Result<Vec<u8>, OutOfMemory>
    requires { IsStats rule.now }
    ensures { IfOk result (λ v. v.items ≡ row (measure_of_array rule.now array.now)) }
{
    let id = array.head().id;
    let measured = measure(alloc, rule, id, array.kind(), array.dims(), array.bytes())?;
    Ok(row_text(alloc, &measured)?.into_bytes())
}

/// The row of the array that goes out of a node at a position.
///
/// # Errors
///
/// Only for want of memory.
fn row_at(
    alloc: Global,
    history: &History,
    node: u32,
    kind: RowKind,
    index: u32,
) -> Result<Vec<u8>, OutOfMemory>
    requires kind { IsRowKind history.now node kind }
    requires frame { index < length history.now.stack.arrays }
    ensures { IfOk result (λ v. v.items ≡ flat_map (row_by kind.entry) (arrays_at history.now node (index ∷ []))) }
{
    let array = history.array(alloc, node, index)?;
    match kind {
        RowKind::Layout(shape) => row_bytes(alloc, shape, array.head(), array.bytes()),
        RowKind::Text(rule) => text_of(alloc, rule, &array),
    }
}

/// Whether a file goes on with the rows of the arrays that go out of a node at these positions. No more than one of the arrays is in memory, with
/// its row.
///
/// # Errors
///
/// `Failed` where the library failed, whose count of faults rose. And `OutOfMemory`.
pub(crate) fn go_on<L: Library>(
    alloc: Global,
    library: &mut L,
    history: &History,
    node: u32,
    kind: RowKind,
    positions: &[u32],
    front: &mut Front,
) -> Result<bool, CompareFault>
    requires kind { IsRowKind history.now node kind }
    requires frames { All (λ k. k < length history.now.stack.arrays) positions.now }
    ensures files { L.holds library.new ≡ L.holds library.old }
    ensures name { front.new.name ≡ front.old.name }
    ensures size { front.new.size ≡ front.old.size }
    ensures goes { IfOk result (λ same. (before : List ℕ) → HasFront (L.holds library.old) front.old before
        → GoesOn same (L.holds library.old) front.new (before ++ flat_map (row_by kind.entry) (arrays_at history.now node positions.now))) }
    ensures cause { IsCompareCause result (L.faults library.old) (L.faults library.new) }
    ensures unread { TellsFault result (HasFailed (L.faults_at library.old) (L.faults_at library.new) front.old.name) (L.faults_at library.old)
        (L.faults_at library.new) }
{
    for &index in positions {
        let row = row_at(alloc, history, node, kind, index)?;
        if !front.goes_on(library, &row)? {
            return Ok(false);
        }
    }
    Ok(true)
}
