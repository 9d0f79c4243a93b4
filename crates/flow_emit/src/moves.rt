//! The other moves of which something follows: loads, issues, drops at the pool, what is saved, and reclaims.

ghost use Rattle.std.specs.Prelude.{◌≡◌, ◌≤◌, ◌<◌, ◌&&◌, [], true, false, OnOk, OnErr, Some, None};
ghost use Rattle.pool_ledger.specs.Grants.{Granted, Refused};
ghost use Rattle.pool_account.specs.Account.{given_up_for};
ghost use Rattle.frame_table.specs.Kept.{without_kept};
ghost use Rattle.flow_journal.specs.declared.entry.Entry.TheVariants.{Load, Saved, PoolDrop, LoadRefused, Issue};
ghost use Rattle.flow_journal.specs.Setting.{is_maker, is_node, last_role};
ghost use Rattle.flow_journal.specs.Accounts.{held, grant as granted_by, grant};
ghost use Rattle.flow_journal.specs.Offered.{next_index};
ghost use Rattle.flow_journal.specs.Queued.{queued};
ghost use Rattle.flow_journal.specs.FirstEntries.{is_next, is_load_of};
ghost use Rattle.flow_journal.specs.Histories.{is_history};
ghost use Rattle.board_rules.specs.States.{past, plain, loses};
ghost use Rattle.board_rules.specs.Moving.{moved, moved_at};
ghost use Rattle.board_rules.specs.Feeding.{load_refusal};
ghost use Rattle.board_rules.specs.Working.{take_refusal};
ghost use Rattle.board_rules.specs.RunMeasures.{run_setting};
ghost use Rattle.nd_base.specs.declared.frame.FrameName.{FrameName};
ghost use Rattle.flow_journal.specs.Hands.{hand};
ghost use Rattle.board_rules.specs.InHand.{hand_node, is_piece_on};
ghost use Rattle.board_rules.specs.Leaving.{reclaim_refusal};
ghost use Rattle.course_parts.specs.declared.hand.Hand.TheVariants.{Loaded, Job, Piece};

use crate::emission::emit;
use crate::ticks;
use flow_journal::Why;
use frame_table::FrameTable;
use nd_base::{FrameName, Held, OutOfMemory};
use pool_ledger::Grant;
use run_course::{Course, Hand};
use std::alloc::Global;
use told_log::LostBlocks;

/// The next frame is loaded, into the block that the pool grants. With `regrown` the storage of a block that isn't fresh was made again.
/// The table forgets the blocks that are given up.
///
/// # Errors
///
/// Only for want of memory for a fresh block. Then nothing changes.
pub fn load<F: Held>(
    course: &mut Course<F>,
    alloc: Global,
    role: u32,
    tick: u64,
    grant: Grant,
    regrown: bool,
    table: &mut FrameTable<F>,
) -> Result<(), OutOfMemory>
    requires still { course.old.transit ≡ [] }
    requires role { role ≤ last_role (run_setting F.Of.graph F.Of.stack) }
    requires history { is_history (run_setting F.Of.graph F.Of.stack) (past course.old.told) ≡ true }
    requires allowed { load_refusal {B = F.Blank} (run_setting F.Of.graph F.Of.stack) role (past course.old.told) ≡ None }
    requires granted { granted_by (run_setting F.Of.graph F.Of.stack) (past course.old.told) ((run_setting F.Of.graph F.Of.stack).need 0)
        ≡ Granted grant.block grant.size grant.fresh grant.given_up }
    requires stale { (regrown && grant.fresh) ≡ false }
    ensures loaded { OnOk result (course.new ≡ record course.old {
      told = moved_at (run_setting F.Of.graph F.Of.stack) tick
          (plain (Load role (next_index (past course.old.told)) grant.block grant.size grant.fresh grant.given_up regrown)) course.old.told;
    }) }
    ensures given { OnOk result (table.new
        ≡ without_kept (given_up_for (run_setting F.Of.graph F.Of.stack) (past course.old.told) grant.fresh grant.given_up) table.old) }
    ensures refused { OnErr result ((course.new ≡ course.old) × (grant.fresh ≡ true)) }
    ensures kept { OnErr result (table.new ≡ table.old) }
{
    course.note_load(alloc, role, grant, regrown, table)?;
    ticks::tick(course, tick);
    Ok(())
}

/// The pool refuses the block for the next frame, which is not offered again.
pub fn refuse_load<F: Held>(course: &mut Course<F>, role: u32, tick: u64)
    requires still { course.old.transit ≡ [] }
    requires role { role ≤ last_role (run_setting F.Of.graph F.Of.stack) }
    requires history { is_history (run_setting F.Of.graph F.Of.stack) (past course.old.told) ≡ true }
    requires allowed { load_refusal {B = F.Blank} (run_setting F.Of.graph F.Of.stack) role (past course.old.told) ≡ None }
    requires refused { grant (run_setting F.Of.graph F.Of.stack) (past course.old.told) ((run_setting F.Of.graph F.Of.stack).need 0) ≡ Refused }
    ensures { course.new ≡ record course.old {
      told = moved_at (run_setting F.Of.graph F.Of.stack) tick
          (plain (LoadRefused role (next_index (past course.old.told)) ((run_setting F.Of.graph F.Of.stack).need 0)
          (held (run_setting F.Of.graph F.Of.stack) (past course.old.told)))) course.old.told;
    } }
{
    course.note_refusal(role);
    ticks::tick(course, tick);
}

/// The frame in the hand of the role is issued, and goes out of the driver.
pub fn issue<F: Held>(course: &mut Course<F>, role: u32, index: u32)
    requires still { course.old.transit ≡ [] }
    requires role { role ≤ last_role (run_setting F.Of.graph F.Of.stack) }
    requires history { is_history (run_setting F.Of.graph F.Of.stack) (past course.old.told) ≡ true }
    requires hand { is_load_of index (hand role (past course.old.told)) ≡ true }
    ensures { course.new ≡ record course.old { told = moved (run_setting F.Of.graph F.Of.stack) (plain (Issue role index)) course.old.told } }
{
    course.note_issue(role, index);
    emit(course, 0, FrameName { maker: 0, index }, Why::Plain, None);
}

/// The pool refuses the block for the next array of the queue of a node that makes arrays, and the array is dropped.
pub fn drop_at_pool<F: Held>(course: &mut Course<F>, role: u32, node: u32) -> FrameName
    requires still { course.old.transit ≡ [] }
    requires role { role ≤ last_role (run_setting F.Of.graph F.Of.stack) }
    requires node { is_node (run_setting F.Of.graph F.Of.stack) node ≡ true }
    requires history { is_history (run_setting F.Of.graph F.Of.stack) (past course.old.told) ≡ true }
    requires allowed { take_refusal {F = F} {B = F.Blank} {O = F.Of} (run_setting F.Of.graph F.Of.stack) role node (past course.old.told) ≡ None }
    requires makes { is_maker (run_setting F.Of.graph F.Of.stack) node ≡ true }
    requires refused { grant (run_setting F.Of.graph F.Of.stack) (past course.old.told) ((run_setting F.Of.graph F.Of.stack).need node) ≡ Refused }
    ensures next { is_next result (queued node (past course.old.told)) ≡ true }
    ensures told { course.new ≡ record course.old {
      told = moved (run_setting F.Of.graph F.Of.stack)
          (plain (PoolDrop role node result.maker result.index ((run_setting F.Of.graph F.Of.stack).need node)
          (held (run_setting F.Of.graph F.Of.stack) (past course.old.told)))) course.old.told;
    } }
{
    let name = course.note_drop(role, node);
    course.release();
    name
}

/// The array in the hand of the role, a piece, is saved.
pub fn saved<F: Held>(course: &mut Course<F>, role: u32, name: FrameName)
    requires still { course.old.transit ≡ [] }
    requires role { role ≤ last_role (run_setting F.Of.graph F.Of.stack) }
    requires history { is_history (run_setting F.Of.graph F.Of.stack) (past course.old.told) ≡ true }
    requires hand { is_piece_on name (hand role (past course.old.told)) ≡ true }
    ensures { course.new ≡ record course.old {
      told = moved (run_setting F.Of.graph F.Of.stack)
          (plain (Saved role (hand_node (hand role (past course.old.told))) name.maker name.index)) course.old.told;
    } }
{
    let node = course.hand_node(role);
    course.note_saved(role, node, name);
    course.release();
}

/// What the role has in hand is taken back. Of these blocks something stayed away.
pub fn reclaim<F: Held>(course: &mut Course<F>, role: u32, lost: LostBlocks)
    requires still { course.old.transit ≡ [] }
    requires role { role ≤ last_role (run_setting F.Of.graph F.Of.stack) }
    requires history { is_history (run_setting F.Of.graph F.Of.stack) (past course.old.told) ≡ true }
    requires allowed { reclaim_refusal (run_setting F.Of.graph F.Of.stack) role (past course.old.told) ≡ None }
    ensures { course.new ≡ record course.old { told = moved (run_setting F.Of.graph F.Of.stack) (loses role lost) course.old.told } }
{
    match course.hand(role) {
        Hand::Free => unreachable!(),
        Hand::Loaded { index, block } => course.reclaim_load(role, index, block, lost),
        Hand::Job { node, name, block } => match block {
            None => course.reclaim_taken(role, node, name, lost),
            Some(block) => course.reclaim_making(role, node, name, block, lost),
        },
        Hand::Piece { node, name } => course.reclaim_piece(role, node, name, lost),
    }
}
