//! How arrays are taken and put.

ghost use Rattle.std.specs.Prelude.{◌≡◌, ◌≤◌, IsTrue, true, false, None, Some};
ghost use Rattle.pool_ledger.specs.Grants.{Granted, Refused};
ghost use Rattle.flow_journal.specs.Setting.{last_role, is_node, is_maker};
ghost use Rattle.flow_journal.specs.Hands.{hand};
ghost use Rattle.flow_journal.specs.Accounts.{grant as granted_by, held as held_by};
ghost use Rattle.flow_journal.specs.FirstEntries.{fires_at};
ghost use Rattle.board_rules.specs.States.{past, plain, lent_to};
ghost use Rattle.board_rules.specs.Moving.{moved};
ghost use Rattle.board_rules.specs.InHand.{is_job_on, granted_size, IsMadeAs, IsWholeOf};
ghost use Rattle.flow_journal.specs.ResultNames.{result_name};
ghost use Rattle.board_rules.specs.RunMeasures.{run_setting, run_measure};
ghost use Rattle.board_rules.specs.Working.{take_refusal, TakeGives, LendsJob};
ghost use Rattle.board_rules.specs.Reusing.{TakeReuses};
ghost use Rattle.run_course.specs.Puts.{put_of, fires_for};

use crate::Board;
use crate::storage::storage_for;
use board_rules::Take;
use frame_table::Taken;
use nd_base::{Held, Measure};
use pool_ledger::Grant;
use std::alloc::Global;

impl<F: Held> Board<F> {
    /// The next array of the queue of a node that makes none, as a job.
    pub(crate) fn take_shared(&mut self, role: u32, node: u32) -> Take<F>
        requires role { role ≤ last_role (run_setting F.Of.graph F.Of.stack) }
        requires node { is_node (run_setting F.Of.graph F.Of.stack) node ≡ true }
        requires allowed { take_refusal {F = F} {B = F.Blank} {O = F.Of} (run_setting F.Of.graph F.Of.stack) role node (past self.old) ≡ None }
        requires passes { is_maker (run_setting F.Of.graph F.Of.stack) node ≡ false }
        ensures gives { TakeGives F.name_of F.parts F.bytes_of (run_setting F.Of.graph F.Of.stack) self.old role node result self.new }
        ensures lent { LendsJob F.parts F.bytes_of (run_setting F.Of.graph F.Of.stack) role node result self.new }
        ensures reused { TakeReuses F.parts F.is_used self.old role result self.new }
    {
        let name = self.course.next_queued(node);
        let block = self.course.block(name);
        let Ok(input) = self.table.lend(block) else {
            return Take::OutOfMemory;
        };
        self.course.take(role, node, &input);
        Take::Job {
            node,
            input,
            blank: None,
        }
    }

    /// The next array of the queue of a node that makes arrays, as a job with the block that the pool grants. The storage of the block is
    /// taken before that of the blocks that are given up is let go.
    pub(crate) fn take_granted(
        &mut self,
        alloc: Global,
        role: u32,
        node: u32,
        grant: Grant,
    ) -> Take<F>
        requires role { role ≤ last_role (run_setting F.Of.graph F.Of.stack) }
        requires node { is_node (run_setting F.Of.graph F.Of.stack) node ≡ true }
        requires allowed { take_refusal {F = F} {B = F.Blank} {O = F.Of} (run_setting F.Of.graph F.Of.stack) role node (past self.old) ≡ None }
        requires makes { is_maker (run_setting F.Of.graph F.Of.stack) node ≡ true }
        requires granted { granted_by (run_setting F.Of.graph F.Of.stack) (past self.old) ((run_setting F.Of.graph F.Of.stack).need node)
            ≡ Granted grant.block grant.size grant.fresh grant.given_up }
        ensures gives { TakeGives F.name_of F.parts F.bytes_of (run_setting F.Of.graph F.Of.stack) self.old role node result self.new }
        ensures lent { LendsJob F.parts F.bytes_of (run_setting F.Of.graph F.Of.stack) role node result self.new }
        ensures reused { TakeReuses F.parts F.is_used self.old role result self.new }
    {
        let name = self.course.next_queued(node);
        let block = self.course.block(name);
        let Ok(input) = self.table.lend(block) else {
            return Take::OutOfMemory;
        };
        let Ok(Taken { blank, regrown }) = storage_for(&mut self.table, alloc, grant) else {
            self.table.give_back(block, input);
            return Take::OutOfMemory;
        };
        let Ok(()) = self
            .course
            .take_block(alloc, role, node, &input, grant, regrown, &mut self.table)
        else {
            self.table.give_back(block, input);
            return Take::OutOfMemory;
        };
        Take::Job {
            node,
            input,
            blank: Some(blank),
        }
    }

    /// The pool refuses a node that makes arrays while so many bytes are held, and the next array of its queue is dropped.
    pub(crate) fn take_refused(&mut self, role: u32, node: u32, held: u64) -> Take<F>
        requires role { role ≤ last_role (run_setting F.Of.graph F.Of.stack) }
        requires node { is_node (run_setting F.Of.graph F.Of.stack) node ≡ true }
        requires allowed { take_refusal {F = F} {B = F.Blank} {O = F.Of} (run_setting F.Of.graph F.Of.stack) role node (past self.old) ≡ None }
        requires makes { is_maker (run_setting F.Of.graph F.Of.stack) node ≡ true }
        requires refused { granted_by (run_setting F.Of.graph F.Of.stack) (past self.old) ((run_setting F.Of.graph F.Of.stack).need node) ≡ Refused }
        requires held { held ≡ held_by (run_setting F.Of.graph F.Of.stack) (past self.old) }
        ensures gives { TakeGives F.name_of F.parts F.bytes_of (run_setting F.Of.graph F.Of.stack) self.old role node result self.new }
        ensures lent { LendsJob F.parts F.bytes_of (run_setting F.Of.graph F.Of.stack) role node result self.new }
        ensures reused { TakeReuses F.parts F.is_used self.old role result self.new }
    {
        let index = flow_emit::drop_at_pool(&mut self.course, role, node).index;
        Take::PoolDrop { index, held }
    }

    /// The result of a job that made no array is put.
    pub(crate) fn put_shared(
        &mut self,
        role: u32,
        node: u32,
        input: F,
        measured: Option<Measure>,
        fired: bool,
    )
        requires role { role ≤ last_role (run_setting F.Of.graph F.Of.stack) }
        requires node { is_node (run_setting F.Of.graph F.Of.stack) node ≡ true }
        requires hand { is_job_on node (F.name_of input) (hand role (past self.old)) ≡ true }
        requires passes { IsMadeAs F.name_of (is_maker (run_setting F.Of.graph F.Of.stack) node)
            (result_name (run_setting F.Of.graph F.Of.stack) node (F.name_of input)) None }
        requires measured { measured ≡ run_measure F.Of.graph F.Of.stack node (F.name_of input) }
        requires fired { fired ≡ fires_for (run_setting F.Of.graph F.Of.stack) node (F.name_of input) }
        requires lent { F.parts input ≡ lent_to role self.old }
        ensures { self.new ≡ moved (run_setting F.Of.graph F.Of.stack)
            (plain (put_of (run_setting F.Of.graph F.Of.stack) role node (F.name_of input) fired)) self.old }
    {
        let name = input.name();
        let block = self.course.block(name);
        self.table.give_back(block, input);
        flow_emit::put(&mut self.course, role, node, name, measured, fired);
    }

    /// The result of a job that made an array is put.
    pub(crate) fn put_made(
        &mut self,
        role: u32,
        node: u32,
        input: F,
        made: F,
        measured: Option<Measure>,
        fired: bool,
    )
        requires role { role ≤ last_role (run_setting F.Of.graph F.Of.stack) }
        requires node { is_node (run_setting F.Of.graph F.Of.stack) node ≡ true }
        requires hand { is_job_on node (F.name_of input) (hand role (past self.old)) ≡ true }
        requires makes { IsMadeAs F.name_of (is_maker (run_setting F.Of.graph F.Of.stack) node)
            (result_name (run_setting F.Of.graph F.Of.stack) node (F.name_of input)) (Some made) }
        requires measured { measured ≡ run_measure F.Of.graph F.Of.stack node (F.name_of input) }
        requires fired { fired ≡ fires_for (run_setting F.Of.graph F.Of.stack) node (F.name_of input) }
        requires lent { F.parts input ≡ lent_to role self.old }
        requires whole { IsWholeOf (granted_size (hand role (past self.old))) (F.parts made) }
        ensures { self.new ≡ moved (run_setting F.Of.graph F.Of.stack)
            (plain (put_of (run_setting F.Of.graph F.Of.stack) role node (F.name_of input) fired)) self.old }
    {
        let name = input.name();
        let block = self.course.block(name);
        let Some(granted) = self.course.granted(role) else {
            unreachable!()
        };
        self.table.give_back(block, input);
        self.table.keep(granted.number, made);
        flow_emit::put(&mut self.course, role, node, name, measured, fired);
    }
}
