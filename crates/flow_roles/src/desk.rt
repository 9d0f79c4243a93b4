//! The desk: the calls of a board, as roles make them.

ghost use Rattle.std.specs.Prelude.{◌≡◌, ◌<◌, ◌≤◌, IsTrue};
ghost use Rattle.flow_journal.specs.Setting.{last_role, is_node};
ghost use Rattle.board_rules.specs.States.{BoardState, past};
ghost use Rattle.board_rules.specs.RunMeasures.{run_setting, run_measure};
ghost use Rattle.board_rules.specs.Feeding.{LoadGives, HasRoom, MayIssue, IssueGives, CloseGives};
ghost use Rattle.board_rules.specs.Working.{TakeGives, LendsJob, IsAtNode, MayPut, PutGives, SettleGives};
ghost use Rattle.board_rules.specs.Saving.{SaveGives, LendsPiece, MaySaved, SavedGives};
ghost use Rattle.board_rules.specs.Leaving.{LeaveGives};
ghost use Rattle.flow_journal.specs.Notes.{progress_of};
ghost use Rattle.flow_roles.specs.Lasts.{said_load, said_given, said_take, said_close, said_leave, said_other, said_progress};
ghost use Rattle.flow_roles.specs.Operations.{frames_of, role_of, tick_of, MayPlay, Replies, Lends, said_reply};
ghost use Rattle.flow_roles.specs.Passes.{Called, CalledBoth};

use crate::{DeskOp, DeskReply};
use board_rules::{Done, Load, NotYours, Save, Settled, Take};
use flow_journal::Progress;
use nd_base::Held;
use std::alloc::Global;
use std::sync::Wait;

/// A board that roles share. Each call is the board's call of its name, at one place of the log that is after all that the
/// pass has seen; what is asked of it is asked by the moves that the pass has made.
pub trait Desk<F: Held> {
    /// What a role makes its calls with.
    type Pass;

    ghost use Rattle.flow_roles.specs.Passes.{Pass};

    /// The pass is one of this desk, and has one role.
    ghost ours: { Self → Self.Pass → Type 0 };

    ghost knows: { Self.Pass → Pass };

    /// Makes the call that the operation is. What each call asks and answers is said where it stands below.
    fn call<W: Wait>(
        &self,
        rt: &W,
        alloc: Global,
        pass: &mut Self::Pass,
        op: DeskOp<F>,
    ) -> DeskReply<F>
        requires pass { ours self.now pass.old × ((knows pass.old).role ≡ role_of op) }
        requires may { MayPlay (frames_of F.name_of F.parts F.bytes_of (run_measure F.Of.graph F.Of.stack)) (run_setting F.Of.graph F.Of.stack)
            (knows pass.old).made op }
        ensures ours { ours self.now pass.new }
        ensures called { Called (run_setting F.Of.graph F.Of.stack)
            (λ old new. Replies (frames_of F.name_of F.parts F.bytes_of (run_measure F.Of.graph F.Of.stack)) (run_setting F.Of.graph F.Of.stack)
            old op result new)
            (said_reply (tick_of op) result) (knows pass.old) (knows pass.new) }
        ensures lends { Lends (frames_of F.name_of F.parts F.bytes_of (run_measure F.Of.graph F.Of.stack)) (run_setting F.Of.graph F.Of.stack) op result
            (knows pass.new).made };

    /// Makes both calls, one directly after the other, where the second is allowed whatever the first is answered.
    fn call_both<W: Wait>(
        &self,
        rt: &W,
        alloc: Global,
        pass: &mut Self::Pass,
        first: DeskOp<F>,
        second: DeskOp<F>,
    ) -> (DeskReply<F>, DeskReply<F>)
        requires pass { ours self.now pass.old × ((knows pass.old).role ≡ role_of first) × ((knows pass.old).role ≡ role_of second) }
        requires first { MayPlay (frames_of F.name_of F.parts F.bytes_of (run_measure F.Of.graph F.Of.stack)) (run_setting F.Of.graph F.Of.stack)
            (knows pass.old).made first }
        requires second { (made : BoardState) → MayPlay (frames_of F.name_of F.parts F.bytes_of (run_measure F.Of.graph F.Of.stack))
            (run_setting F.Of.graph F.Of.stack) made second }
        ensures ours { ours self.now pass.new }
        ensures called { CalledBoth (run_setting F.Of.graph F.Of.stack)
            (λ old new. Replies (frames_of F.name_of F.parts F.bytes_of (run_measure F.Of.graph F.Of.stack)) (run_setting F.Of.graph F.Of.stack)
            old first result.0 new)
            (λ old new. Replies (frames_of F.name_of F.parts F.bytes_of (run_measure F.Of.graph F.Of.stack)) (run_setting F.Of.graph F.Of.stack)
            old second result.1 new)
            (said_reply (tick_of first) result.0) (said_reply (tick_of second) result.1) (knows pass.old) (knows pass.new) }
        ensures lends { Lends (frames_of F.name_of F.parts F.bytes_of (run_measure F.Of.graph F.Of.stack)) (run_setting F.Of.graph F.Of.stack) second result.1
            (knows pass.new).made };

    /// The next frame, with storage for it, or why there is none. `tick` is the moment of the call: late results go out by it.
    final fn load<W: Wait>(
        &self,
        rt: &W,
        alloc: Global,
        pass: &mut Self::Pass,
        role: u32,
        tick: u64,
    ) -> Load<F::Blank>
        requires pass { ours self.now pass.old × ((knows pass.old).role ≡ role) }
        requires role { role < last_role (run_setting F.Of.graph F.Of.stack) }
        ensures ours { ours self.now pass.new }
        ensures called { Called (run_setting F.Of.graph F.Of.stack)
            (λ old new. LoadGives F.parts F.bytes_of (run_setting F.Of.graph F.Of.stack) old role tick result new)
            (said_load result tick) (knows pass.old) (knows pass.new) }
        ensures room { HasRoom F.bytes_of (run_setting F.Of.graph F.Of.stack) role result (knows pass.new).made }
    {
        match self.call(rt, alloc, pass, DeskOp::Load { role, tick }) {
            DeskReply::Load(answer) => answer,
            _ => unreachable!(),
        }
    }

    /// Offers the loaded frame to the children of the driver.
    final fn issue<W: Wait>(
        &self,
        rt: &W,
        alloc: Global,
        pass: &mut Self::Pass,
        role: u32,
        frame: F,
    ) -> Result<(), NotYours<F>>
        requires pass { ours self.now pass.old × ((knows pass.old).role ≡ role) }
        requires role { role < last_role (run_setting F.Of.graph F.Of.stack) }
        requires whole { MayIssue F.name_of F.parts (knows pass.old).made role frame }
        ensures ours { ours self.now pass.new }
        ensures called { Called (run_setting F.Of.graph F.Of.stack)
            (λ old new. IssueGives F.name_of (run_setting F.Of.graph F.Of.stack) old role frame result new)
            (said_given result) (knows pass.old) (knows pass.new) }
    {
        match self.call(rt, alloc, pass, DeskOp::Issue { role, frame }) {
            DeskReply::Issue(answer) => answer,
            _ => unreachable!(),
        }
    }

    /// The next array of the node's queue as a job, at a maker with storage for what it makes.
    final fn take<W: Wait>(
        &self,
        rt: &W,
        alloc: Global,
        pass: &mut Self::Pass,
        role: u32,
        node: u32,
    ) -> Take<F>
        requires pass { ours self.now pass.old × ((knows pass.old).role ≡ role) }
        requires role { role < last_role (run_setting F.Of.graph F.Of.stack) }
        requires node { IsTrue (is_node (run_setting F.Of.graph F.Of.stack) node) }
        ensures ours { ours self.now pass.new }
        ensures called { Called (run_setting F.Of.graph F.Of.stack)
            (λ old new. TakeGives F.name_of F.parts F.bytes_of (run_setting F.Of.graph F.Of.stack) old role node result new)
            (said_take result) (knows pass.old) (knows pass.new) }
        ensures lent { LendsJob F.parts F.bytes_of (run_setting F.Of.graph F.Of.stack) role node result (knows pass.new).made }
    {
        match self.call(rt, alloc, pass, DeskOp::Take { role, node }) {
            DeskReply::Take(answer) => answer,
            _ => unreachable!(),
        }
    }

    /// Takes the result of a job, and lets go out what then goes out of the node.
    final fn put<W: Wait>(
        &self,
        rt: &W,
        alloc: Global,
        pass: &mut Self::Pass,
        role: u32,
        done: Done<F>,
    ) -> Result<(), NotYours<F>>
        requires pass { ours self.now pass.old × ((knows pass.old).role ≡ role) }
        requires role { role < last_role (run_setting F.Of.graph F.Of.stack) }
        requires node { IsAtNode (run_setting F.Of.graph F.Of.stack) done }
        requires of_job { MayPut F.name_of F.parts (run_measure F.Of.graph F.Of.stack) (run_setting F.Of.graph F.Of.stack)
            (knows pass.old).made role done }
        ensures ours { ours self.now pass.new }
        ensures called { Called (run_setting F.Of.graph F.Of.stack)
            (λ old new. PutGives F.name_of (run_setting F.Of.graph F.Of.stack) old role done result new)
            (said_given result) (knows pass.old) (knows pass.new) }
    {
        match self.call(rt, alloc, pass, DeskOp::Put { role, done }) {
            DeskReply::Put(answer) => answer,
            _ => unreachable!(),
        }
    }

    /// Ends the node where nothing can come to it any more, and flushes what waits there.
    final fn settle<W: Wait>(
        &self,
        rt: &W,
        alloc: Global,
        pass: &mut Self::Pass,
        role: u32,
        node: u32,
    ) -> Settled
        requires pass { ours self.now pass.old × ((knows pass.old).role ≡ role) }
        requires role { role < last_role (run_setting F.Of.graph F.Of.stack) }
        requires node { IsTrue (is_node (run_setting F.Of.graph F.Of.stack) node) }
        ensures ours { ours self.now pass.new }
        ensures called { Called (run_setting F.Of.graph F.Of.stack)
            (λ old new. SettleGives (run_setting F.Of.graph F.Of.stack) old role node result new)
            said_other (knows pass.old) (knows pass.new) }
    {
        match self.call(rt, alloc, pass, DeskOp::Settle { role, node }) {
            DeskReply::Settle(answer) => answer,
            _ => unreachable!(),
        }
    }

    /// Ends the feed where every frame was offered.
    final fn close<W: Wait>(
        &self,
        rt: &W,
        alloc: Global,
        pass: &mut Self::Pass,
        role: u32,
    ) -> Settled
        requires pass { ours self.now pass.old × ((knows pass.old).role ≡ role) }
        requires role { role < last_role (run_setting F.Of.graph F.Of.stack) }
        ensures ours { ours self.now pass.new }
        ensures called { Called (run_setting F.Of.graph F.Of.stack)
            (λ old new. CloseGives (run_setting F.Of.graph F.Of.stack) old role result new)
            (said_close result) (knows pass.old) (knows pass.new) }
    {
        match self.call(rt, alloc, pass, DeskOp::Close { role }) {
            DeskReply::Close(answer) => answer,
            _ => unreachable!(),
        }
    }

    /// The role ends for want of memory. From then on nobody but the drain gets a frame or a job.
    final fn leave<W: Wait>(&self, rt: &W, alloc: Global, pass: &mut Self::Pass, role: u32)
        requires pass { ours self.now pass.old × ((knows pass.old).role ≡ role) }
        requires role { role < last_role (run_setting F.Of.graph F.Of.stack) }
        ensures ours { ours self.now pass.new }
        ensures called { Called (run_setting F.Of.graph F.Of.stack)
            (λ old new. LeaveGives (run_setting F.Of.graph F.Of.stack) old role new)
            said_leave (knows pass.old) (knows pass.new) }
    {
        match self.call(rt, alloc, pass, DeskOp::Leave { role }) {
            DeskReply::Leave => {}
            _ => unreachable!(),
        }
    }

    /// The next array of a file node that is due, as a piece of its group. Only the last role asks for it.
    final fn save<W: Wait>(
        &self,
        rt: &W,
        alloc: Global,
        pass: &mut Self::Pass,
        role: u32,
        node: u32,
    ) -> Save<F>
        requires pass { ours self.now pass.old × ((knows pass.old).role ≡ role) }
        requires role { role ≡ last_role (run_setting F.Of.graph F.Of.stack) }
        requires node { IsTrue (is_node (run_setting F.Of.graph F.Of.stack) node) }
        ensures ours { ours self.now pass.new }
        ensures called { Called (run_setting F.Of.graph F.Of.stack)
            (λ old new. SaveGives F.name_of F.parts (run_setting F.Of.graph F.Of.stack) old role node result new)
            said_other (knows pass.old) (knows pass.new) }
        ensures lent { LendsPiece F.parts role result (knows pass.new).made }
    {
        match self.call(rt, alloc, pass, DeskOp::Save { role, node }) {
            DeskReply::Save(answer) => answer,
            _ => unreachable!(),
        }
    }

    /// Takes a piece back once it is saved.
    final fn saved<W: Wait>(
        &self,
        rt: &W,
        alloc: Global,
        pass: &mut Self::Pass,
        role: u32,
        frame: F,
    ) -> Result<(), NotYours<F>>
        requires pass { ours self.now pass.old × ((knows pass.old).role ≡ role) }
        requires role { role ≡ last_role (run_setting F.Of.graph F.Of.stack) }
        requires brings { MaySaved F.name_of F.parts (knows pass.old).made role frame }
        ensures ours { ours self.now pass.new }
        ensures called { Called (run_setting F.Of.graph F.Of.stack)
            (λ old new. SavedGives F.name_of (run_setting F.Of.graph F.Of.stack) old role frame result new)
            (said_given result) (knows pass.old) (knows pass.new) }
    {
        match self.call(rt, alloc, pass, DeskOp::Saved { role, frame }) {
            DeskReply::Saved(answer) => answer,
            _ => unreachable!(),
        }
    }

    /// How far the run has come.
    final fn progress<W: Wait>(
        &self,
        rt: &W,
        alloc: Global,
        pass: &mut Self::Pass,
        role: u32,
    ) -> Progress
        requires pass { ours self.now pass.old × ((knows pass.old).role ≡ role) }
        requires role { role ≤ last_role (run_setting F.Of.graph F.Of.stack) }
        ensures ours { ours self.now pass.new }
        ensures called { Called (run_setting F.Of.graph F.Of.stack)
            (λ old new. (result ≡ progress_of (run_setting F.Of.graph F.Of.stack) (past old)) × (new ≡ old))
            (said_progress result) (knows pass.old) (knows pass.new) }
    {
        match self.call(rt, alloc, pass, DeskOp::Progress { role }) {
            DeskReply::Progress(answer) => answer,
            _ => unreachable!(),
        }
    }

    /// `issue`, and then `load`.
    final fn issue_load<W: Wait>(
        &self,
        rt: &W,
        alloc: Global,
        pass: &mut Self::Pass,
        role: u32,
        frame: F,
        tick: u64,
    ) -> (Result<(), NotYours<F>>, Load<F::Blank>)
        requires pass { ours self.now pass.old × ((knows pass.old).role ≡ role) }
        requires role { role < last_role (run_setting F.Of.graph F.Of.stack) }
        requires whole { MayIssue F.name_of F.parts (knows pass.old).made role frame }
        ensures ours { ours self.now pass.new }
        ensures called { CalledBoth (run_setting F.Of.graph F.Of.stack)
            (λ old new. IssueGives F.name_of (run_setting F.Of.graph F.Of.stack) old role frame result.0 new)
            (λ old new. LoadGives F.parts F.bytes_of (run_setting F.Of.graph F.Of.stack) old role tick result.1 new)
            (said_given result.0) (said_load result.1 tick) (knows pass.old) (knows pass.new) }
        ensures room { HasRoom F.bytes_of (run_setting F.Of.graph F.Of.stack) role result.1 (knows pass.new).made }
    {
        let (first, second) = self.call_both(
            rt,
            alloc,
            pass,
            DeskOp::Issue { role, frame },
            DeskOp::Load { role, tick },
        );
        let DeskReply::Issue(issued) = first else {
            unreachable!()
        };
        let DeskReply::Load(loaded) = second else {
            unreachable!()
        };
        (issued, loaded)
    }

    /// `put`, and then `take`.
    final fn put_take<W: Wait>(
        &self,
        rt: &W,
        alloc: Global,
        pass: &mut Self::Pass,
        role: u32,
        done: Done<F>,
        node: u32,
    ) -> (Result<(), NotYours<F>>, Take<F>)
        requires pass { ours self.now pass.old × ((knows pass.old).role ≡ role) }
        requires role { role < last_role (run_setting F.Of.graph F.Of.stack) }
        requires of_node { IsAtNode (run_setting F.Of.graph F.Of.stack) done }
        requires of_job { MayPut F.name_of F.parts (run_measure F.Of.graph F.Of.stack) (run_setting F.Of.graph F.Of.stack)
            (knows pass.old).made role done }
        requires node { IsTrue (is_node (run_setting F.Of.graph F.Of.stack) node) }
        ensures ours { ours self.now pass.new }
        ensures called { CalledBoth (run_setting F.Of.graph F.Of.stack)
            (λ old new. PutGives F.name_of (run_setting F.Of.graph F.Of.stack) old role done result.0 new)
            (λ old new. TakeGives F.name_of F.parts F.bytes_of (run_setting F.Of.graph F.Of.stack) old role node result.1 new)
            (said_given result.0) (said_take result.1) (knows pass.old) (knows pass.new) }
        ensures lent { LendsJob F.parts F.bytes_of (run_setting F.Of.graph F.Of.stack) role node result.1 (knows pass.new).made }
    {
        let (first, second) = self.call_both(
            rt,
            alloc,
            pass,
            DeskOp::Put { role, done },
            DeskOp::Take { role, node },
        );
        let DeskReply::Put(put) = first else {
            unreachable!()
        };
        let DeskReply::Take(taken) = second else {
            unreachable!()
        };
        (put, taken)
    }
}
