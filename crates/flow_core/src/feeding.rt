//! How a frame is loaded.

ghost use Rattle.std.specs.Prelude.{◌≡◌, ◌≤◌, None};
ghost use Rattle.pool_ledger.specs.Grants.{Granted, Refused};
ghost use Rattle.flow_journal.specs.Setting.{last_role};
ghost use Rattle.flow_journal.specs.Accounts.{grant as granted_by, held as held_by};
ghost use Rattle.board_rules.specs.States.{past};
ghost use Rattle.board_rules.specs.RunMeasures.{run_setting};
ghost use Rattle.board_rules.specs.Feeding.{load_refusal, LoadGives, HasRoom};
ghost use Rattle.board_rules.specs.Reusing.{LoadReuses};

use crate::Board;
use crate::storage::storage_for;
use board_rules::Load;
use frame_table::Taken;
use nd_base::Held;
use pool_ledger::Grant;
use std::alloc::Global;

impl<F: Held> Board<F> {
    /// Loads the next frame into the block that the pool grants. Its storage is taken before that of the blocks that are given up is let go.
    pub(crate) fn load_granted(
        &mut self,
        alloc: Global,
        role: u32,
        tick: u64,
        grant: Grant,
    ) -> Load<F::Blank>
        requires role { role ≤ last_role (run_setting F.Of.graph F.Of.stack) }
        requires allowed { load_refusal {B = F.Blank} (run_setting F.Of.graph F.Of.stack) role (past self.old) ≡ None }
        requires granted { granted_by (run_setting F.Of.graph F.Of.stack) (past self.old) ((run_setting F.Of.graph F.Of.stack).need 0)
            ≡ Granted grant.block grant.size grant.fresh grant.given_up }
        ensures gives { LoadGives F.parts F.bytes_of (run_setting F.Of.graph F.Of.stack) self.old role tick result self.new }
        ensures room { HasRoom F.bytes_of (run_setting F.Of.graph F.Of.stack) role result self.new }
        ensures reused { LoadReuses F.parts F.is_used self.old role result self.new }
    {
        let Ok(Taken { blank, regrown }) = storage_for(&mut self.table, alloc, grant) else {
            return Load::OutOfMemory;
        };
        let index = self.course.next_index();
        let Ok(()) = flow_emit::load(
            &mut self.course,
            alloc,
            role,
            tick,
            grant,
            regrown,
            &mut self.table,
        ) else {
            return Load::OutOfMemory;
        };
        Load::Loaded { index, blank }
    }

    /// The pool refuses the next frame while so many bytes are held.
    pub(crate) fn load_refused(&mut self, role: u32, tick: u64, held: u64) -> Load<F::Blank>
        requires role { role ≤ last_role (run_setting F.Of.graph F.Of.stack) }
        requires allowed { load_refusal {B = F.Blank} (run_setting F.Of.graph F.Of.stack) role (past self.old) ≡ None }
        requires refused { granted_by (run_setting F.Of.graph F.Of.stack) (past self.old) ((run_setting F.Of.graph F.Of.stack).need 0) ≡ Refused }
        requires held { held ≡ held_by (run_setting F.Of.graph F.Of.stack) (past self.old) }
        ensures gives { LoadGives F.parts F.bytes_of (run_setting F.Of.graph F.Of.stack) self.old role tick result self.new }
        ensures room { HasRoom F.bytes_of (run_setting F.Of.graph F.Of.stack) role result self.new }
        ensures reused { LoadReuses F.parts F.is_used self.old role result self.new }
    {
        let index = self.course.next_index();
        flow_emit::refuse_load(&mut self.course, role, tick);
        Load::Refused { index, held }
    }
}
