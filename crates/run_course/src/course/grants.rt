//! What the pool grants.

ghost use Rattle.std.specs.Prelude.{◌≡◌, ◌≢◌, ◌⊎◌, ◌≤◌, ◌<◌, ◌∷◌, ◌&&◌, [], true, false, length, OnOk, OnErr, Some, None};
ghost use Rattle.pool_ledger.specs.Grants.{Granted};
ghost use Rattle.pool_ledger.specs.Ledger.{answered, after, grant_for};
ghost use Rattle.pool_account.specs.Account.{all_named, given_up_for};
ghost use Rattle.frame_table.specs.Kept.{without_kept};
ghost use Rattle.flow_journal.specs.declared.entry.Entry.TheVariants.{Load, TakeBlock};
ghost use Rattle.flow_journal.specs.Setting.{is_maker, is_node, last_role};
ghost use Rattle.flow_journal.specs.Accounts.{held, grant as granted_by};
ghost use Rattle.flow_journal.specs.Offered.{next_index};
ghost use Rattle.flow_journal.specs.Queued.{queued};
ghost use Rattle.flow_journal.specs.FirstEntries.{is_next};
ghost use Rattle.flow_journal.specs.Histories.{is_history};
ghost use Rattle.board_rules.specs.States.{past, plain, lends};
ghost use Rattle.board_rules.specs.Moving.{moved};
ghost use Rattle.board_rules.specs.Feeding.{load_refusal};
ghost use Rattle.board_rules.specs.Working.{take_refusal};
ghost use Rattle.board_rules.specs.RunMeasures.{run_setting};

use crate::Course;
use course_parts::{Block, Hand};
use flow_journal::Entry;
use frame_table::FrameTable;
use nd_base::{FrameName, Held, OutOfMemory};
use pool_ledger::{Grant, Pool, Refused};
use std::alloc::Global;

/// Names all blocks that were given up, and forgets them in the table.
fn forget_given<F: Held>(pool: &mut Pool, table: &mut FrameTable<F>)
    ensures pool { pool.new ≡ all_named pool.old }
    ensures table { table.new ≡ without_kept pool.old.unnamed table.old }
{
    while let Some(block) = pool.given_next() {
        table.forget(block);
    }
}

/// Takes what the pool grants for so many bytes. The blocks that it gives up are forgotten in the table.
fn take_grant<F: Held>(
    pool: &mut Pool,
    alloc: Global,
    need: u32,
    grant: Grant,
    table: &mut FrameTable<F>,
) -> Result<(), OutOfMemory>
    requires some { need ≢ 0 }
    requires few { length pool.old.known < 4294967295 }
    requires named { pool.old.unnamed ≡ [] }
    requires granted { grant_for need pool.old ≡ Granted grant.block grant.size grant.fresh grant.given_up }
    ensures taken { OnOk result (pool.new
        ≡ record (all_named (after pool.old (Granted grant.block grant.size grant.fresh grant.given_up))) { room = pool.new.room }) }
    ensures given { OnOk result (table.new
        ≡ without_kept (after pool.old (Granted grant.block grant.size grant.fresh grant.given_up)).unnamed table.old) }
    ensures refused { OnErr result ((pool.new ≡ pool.old) × (grant.fresh ≡ true)) }
    ensures kept { OnErr result (table.new ≡ table.old) }
{
    if grant.fresh {
        pool.make_room(alloc)?;
    }
    let Ok(_) = pool.ask(need) else {
        unreachable!()
    };
    forget_given(pool, table);
    Ok(())
}

impl<F: Held> Course<F> {
    /// What the pool would answer to the driver, which is 0, or to a node that makes arrays.
    pub fn peek(&self, node: u32) -> Result<Grant, Refused>
        requires still { self.now.transit ≡ [] }
        requires maker { (node ≡ 0) ⊎ (is_maker (run_setting F.Of.graph F.Of.stack) node ≡ true) }
        ensures { result ≡ answered (held (run_setting F.Of.graph F.Of.stack) (past self.now.told))
            (granted_by (run_setting F.Of.graph F.Of.stack) (past self.now.told) ((run_setting F.Of.graph F.Of.stack).need node)) }
    {
        self.pool.peek(self.need(node))
    }

    /// The next frame is loaded, into the block that the pool grants. With `regrown` the storage of a block that isn't fresh was made again.
    /// The table forgets the blocks that are given up.
    ///
    /// # Errors
    ///
    /// Only for want of memory for a fresh block. Then nothing changes.
    pub fn note_load(
        &mut self,
        alloc: Global,
        role: u32,
        grant: Grant,
        regrown: bool,
        table: &mut FrameTable<F>,
    ) -> Result<(), OutOfMemory>
        requires still { self.old.transit ≡ [] }
        requires role { role ≤ last_role (run_setting F.Of.graph F.Of.stack) }
        requires history { is_history (run_setting F.Of.graph F.Of.stack) (past self.old.told) ≡ true }
        requires allowed { load_refusal {B = F.Blank} (run_setting F.Of.graph F.Of.stack) role (past self.old.told) ≡ None }
        requires granted { granted_by (run_setting F.Of.graph F.Of.stack) (past self.old.told) ((run_setting F.Of.graph F.Of.stack).need 0)
            ≡ Granted grant.block grant.size grant.fresh grant.given_up }
        requires stale { (regrown && grant.fresh) ≡ false }
        ensures loaded { OnOk result (self.new ≡ record self.old {
          told =
              plain (Load role (next_index (past self.old.told)) grant.block grant.size grant.fresh grant.given_up regrown) ∷ self.old.told;
        }) }
        ensures given { OnOk result (table.new
            ≡ without_kept (given_up_for (run_setting F.Of.graph F.Of.stack) (past self.old.told) grant.fresh grant.given_up) table.old) }
        ensures refused { OnErr result ((self.new ≡ self.old) × (grant.fresh ≡ true)) }
        ensures kept { OnErr result (table.new ≡ table.old) }
    {
        take_grant(&mut self.pool, alloc, self.rules.need, grant, table)?;
        let Grant {
            block,
            size,
            fresh,
            given_up,
        } = grant;
        let index = self.facts.offered;
        self.blocks[index as usize] = block;
        self.roles[role as usize].hand = Hand::Loaded {
            index,
            block: Block {
                number: block,
                size,
            },
        };
        self.facts.offered += 1;
        self.facts.loaded = true;
        self.log.push(Entry::Load {
            role,
            index,
            block,
            size,
            fresh,
            given: given_up,
            regrown,
        });
        Ok(())
    }

    /// The next array of the queue of a node that makes arrays goes out as a job, of which this is the part, with the block that the pool
    /// grants. With `regrown` the storage of a block that isn't fresh was made again. The table forgets the blocks that are given up.
    ///
    /// # Errors
    ///
    /// Only for want of memory for a fresh block. Then nothing changes.
    pub fn take_block(
        &mut self,
        alloc: Global,
        role: u32,
        node: u32,
        part: &F,
        grant: Grant,
        regrown: bool,
        table: &mut FrameTable<F>,
    ) -> Result<(), OutOfMemory>
        requires still { self.old.transit ≡ [] }
        requires role { role ≤ last_role (run_setting F.Of.graph F.Of.stack) }
        requires node { is_node (run_setting F.Of.graph F.Of.stack) node ≡ true }
        requires history { is_history (run_setting F.Of.graph F.Of.stack) (past self.old.told) ≡ true }
        requires allowed { take_refusal {F = F} {B = F.Blank} {O = F.Of} (run_setting F.Of.graph F.Of.stack) role node (past self.old.told) ≡ None }
        requires makes { is_maker (run_setting F.Of.graph F.Of.stack) node ≡ true }
        requires granted { granted_by (run_setting F.Of.graph F.Of.stack) (past self.old.told) ((run_setting F.Of.graph F.Of.stack).need node)
            ≡ Granted grant.block grant.size grant.fresh grant.given_up }
        requires stale { (regrown && grant.fresh) ≡ false }
        requires next { is_next (F.name_of part.now) (queued node (past self.old.told)) ≡ true }
        ensures taken { OnOk result (self.new ≡ record self.old {
          told = moved (run_setting F.Of.graph F.Of.stack)
              (lends (TakeBlock grant.fresh regrown role node (F.name_of part.now).maker (F.name_of part.now).index
              grant.block grant.size grant.given_up) (F.parts part.now)) self.old.told;
        }) }
        ensures given { OnOk result (table.new
            ≡ without_kept (given_up_for (run_setting F.Of.graph F.Of.stack) (past self.old.told) grant.fresh grant.given_up) table.old) }
        ensures refused { OnErr result ((self.new ≡ self.old) × (grant.fresh ≡ true)) }
        ensures kept { OnErr result (table.new ≡ table.old) }
    {
        let place = node as usize - 1;
        let need = self.rules.nodes.as_slice()[place].need;
        take_grant(&mut self.pool, alloc, need, grant, table)?;
        let name = part.name();
        let FrameName { maker, index } = name;
        let frames = self.rules.ids.as_slice().len();
        self.blocks[node as usize * frames + index as usize] = grant.block;
        let state = &mut self.nodes[place];
        let _ = state.inbox.pop();
        state.jobs += 1;
        self.roles[role as usize].hand = Hand::Job {
            node,
            name,
            block: Some(Block {
                number: grant.block,
                size: grant.size,
            }),
        };
        let entry = Entry::TakeBlock {
            fresh: grant.fresh,
            regrown,
            role,
            node,
            maker,
            index,
            block: grant.block,
            size: grant.size,
            given: grant.given_up,
        };
        self.log.push_lent(entry, part);
        Ok(())
    }
}
