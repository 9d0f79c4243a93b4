//! The storage of blocks, and what comes back of them.

ghost use Rattle.std.specs.Prelude.{◌≡◌, ◌≤◌, ◌<◌, ◌||◌, true, length, is_some, IfOk, OnOk, OnErr};
ghost use Rattle.board_rules.specs.InHand.{OfSome};
ghost use Rattle.board_rules.specs.Storage.{brings};
ghost use Rattle.flow_journal.specs.Pasts.{same};
ghost use Rattle.frame_table.specs.Kept.{kept_at, MayGiveBack};
ghost use Rattle.kept_blocks.specs.MoveLaws.{with_grant, with_input};
ghost use Rattle.flow_core.specs.Boards.{IsRemade, IsSameStorage, IsNotStored, with_storage, lost_block};

use frame_table::{FrameTable, Taken};
use nd_base::{FrameName, Held, OutOfMemory};
use pool_ledger::Grant;
use std::alloc::Global;

/// Storage for a block that the pool grants, and whether that of a known block was made anew. A new block may have the number of one that is
/// given up for it: what is kept there stays until the log has the grant, and goes with the others then.
///
/// # Errors
///
/// Only for want of memory.
pub(crate) fn storage_for<F: Held>(
    table: &mut FrameTable<F>,
    alloc: Global,
    grant: Grant,
) -> Result<Taken<F::Blank>, OutOfMemory>
    requires { grant.block ≤ length table.old }
    ensures size { IfOk result (λ taken. F.bytes_of taken.blank ≡ grant.size) }
    ensures regrown { IfOk result (λ taken. IsRemade grant.size grant.block grant.fresh table.old taken.regrown) }
    ensures used { IfOk result (λ taken. IsSameStorage grant.block grant.fresh table.old taken.regrown (F.is_used taken.blank)) }
    ensures place { OnOk result (table.new ≡ with_storage grant.block grant.fresh table.old) }
    ensures refused { OnErr result (IsNotStored grant.size grant.block grant.fresh table.old table.new) }
{
    table.make_room(grant.block)?;
    if grant.fresh {
        return Ok(Taken {
            blank: F::fresh(alloc, grant.size)?,
            regrown: false,
        });
    }
    table.take_storage(alloc, grant.block, grant.size)
}

/// Keeps what came back of the array of this name. Gives its block where its part didn't come back.
pub(crate) fn keep_input<F: Held>(
    table: &mut FrameTable<F>,
    block: u32,
    name: FrameName,
    input: Option<F>,
) -> Option<u32>
    requires place { block < length table.old }
    requires may { OfSome (λ f. same (F.name_of f) name ≡ true → MayGiveBack (kept_at table.old block) (F.parts f)) input }
    ensures table { table.new ≡ with_input F.name_of F.parts name block input table.old }
    ensures lost { result ≡ lost_block (brings F.name_of name input) block }
{
    match input {
        Some(part) if part.name() == name => {
            table.give_back(block, part);
            None
        }
        _ => Some(block),
    }
}

/// Keeps what came back of a block that was granted: the frame that was made, or else the storage. Gives the block where neither did.
pub(crate) fn keep_grant<F: Held>(
    table: &mut FrameTable<F>,
    block: u32,
    made: Option<F>,
    blank: Option<F::Blank>,
) -> Option<u32>
    requires { block < length table.old }
    ensures table { table.new ≡ with_grant F.name_of F.parts F.bytes_of F.is_used block made blank table.old }
    ensures lost { result ≡ lost_block (is_some made || is_some blank) block }
{
    match (made, blank) {
        (Some(frame), _) => table.keep(block, frame),
        (None, Some(blank)) => table.store(block, blank),
        (None, None) => return Some(block),
    }
    None
}
