//! The calls of a board, with their clauses: what each asks, answers and logs, over every graph. A board implements them,
//! and roles are written against them.

ghost use Rattle.std.specs.Prelude.{◌≡◌, ◌≤◌, IfOk, IsTrue, [], true};
ghost use Rattle.nd_base.specs.GraphRules.{IsGraph};
ghost use Rattle.nd_base.specs.Stacks.{IsStack};
ghost use Rattle.chain_plain.specs.Plans.{plan_of};
ghost use Rattle.flow_journal.specs.Setting.{last_role, is_node};
ghost use Rattle.flow_journal.specs.Histories.{is_history};
ghost use Rattle.flow_journal.specs.Finished.{is_finished};
ghost use Rattle.board_rules.specs.States.{past};
ghost use Rattle.board_rules.specs.RunMeasures.{run_setting, run_measure};
ghost use Rattle.board_rules.specs.Feeding.{LoadGives, HasRoom, MayIssue, IssueGives, CloseGives};
ghost use Rattle.board_rules.specs.Working.{TakeGives, LendsJob, IsAtNode, MayPut, PutGives, SettleGives};
ghost use Rattle.board_rules.specs.Reusing.{LoadReuses, TakeReuses};
ghost use Rattle.board_rules.specs.Saving.{SaveGives, LendsPiece, MaySaved, SavedGives};
ghost use Rattle.board_rules.specs.Leaving.{LeaveGives, MayReclaim, ReclaimGives};
ghost use Rattle.board_rules.specs.Ends.{measured};
ghost use Rattle.flow_journal.specs.Notes.{progress_of};

use crate::{Done, Left, Load, Measures, NoReclaim, NotYours, Save, Settled, Take};
use flow_journal::{Log, Progress};
use nd_base::{Held, OutOfMemory, Plan};
use std::alloc::Global;

/// A board of the run of its frames. Role 0 is the feeder, then come the workers in the order of the nodes, as many as each
/// node has threads, and the last role is the drain. A call that is refused changes nothing.
pub trait BoardCalls<F: Held>: Sized + Drop {
    ghost use Rattle.board_rules.specs.States.{BoardState};

    /// What the board is seen as: its log, with what was handed over beside it.
    ghost shown: { Self → BoardState };

    /// A board that nobody has called. No later call but `load`, `take` and `save` takes memory.
    fn start(alloc: Global, plan: &Plan) -> Result<Self, OutOfMemory>
        requires plan { plan.now ≡ plan_of F.Of.graph F.Of.stack }
        requires graph { IsGraph F.Of.graph }
        requires stack { IsStack F.Of.stack }
        ensures { IfOk result (λ b. shown b ≡ []) };

    /// The next frame, with storage for it, or why there is none. `tick` is the moment of the call: late results go out by it.
    fn load(&mut self, alloc: Global, role: u32, tick: u64) -> Load<F::Blank>
        requires role { role ≤ last_role (run_setting F.Of.graph F.Of.stack) }
        ensures gives { LoadGives F.parts F.bytes_of (run_setting F.Of.graph F.Of.stack) (shown self.old) role tick result (shown self.new) }
        ensures room { HasRoom F.bytes_of (run_setting F.Of.graph F.Of.stack) role result (shown self.new) }
        ensures reused { LoadReuses F.parts F.is_used (shown self.old) role result (shown self.new) };

    /// Offers the loaded frame to the children of the driver.
    fn issue(&mut self, role: u32, frame: F) -> Result<(), NotYours<F>>
        requires role { role ≤ last_role (run_setting F.Of.graph F.Of.stack) }
        requires whole { MayIssue F.name_of F.parts (shown self.old) role frame }
        ensures gives { IssueGives F.name_of (run_setting F.Of.graph F.Of.stack) (shown self.old) role frame result (shown self.new) };

    /// The next array of the node's queue as a job, at a maker with storage for what it makes.
    fn take(&mut self, alloc: Global, role: u32, node: u32) -> Take<F>
        requires role { role ≤ last_role (run_setting F.Of.graph F.Of.stack) }
        requires node { IsTrue (is_node (run_setting F.Of.graph F.Of.stack) node) }
        ensures gives { TakeGives F.name_of F.parts F.bytes_of (run_setting F.Of.graph F.Of.stack) (shown self.old) role node result (shown self.new) }
        ensures lent { LendsJob F.parts F.bytes_of (run_setting F.Of.graph F.Of.stack) role node result (shown self.new) }
        ensures reused { TakeReuses F.parts F.is_used (shown self.old) role result (shown self.new) };

    /// Takes the result of a job, and lets go out what then goes out of the node.
    fn put(&mut self, role: u32, done: Done<F>) -> Result<(), NotYours<F>>
        requires role { role ≤ last_role (run_setting F.Of.graph F.Of.stack) }
        requires node { IsAtNode (run_setting F.Of.graph F.Of.stack) done }
        requires of_job { MayPut F.name_of F.parts (run_measure F.Of.graph F.Of.stack) (run_setting F.Of.graph F.Of.stack) (shown self.old) role done }
        ensures gives { PutGives F.name_of (run_setting F.Of.graph F.Of.stack) (shown self.old) role done result (shown self.new) };

    /// Ends the node where nothing can come to it any more, and flushes what waits there.
    fn settle(&mut self, role: u32, node: u32) -> Settled
        requires role { role ≤ last_role (run_setting F.Of.graph F.Of.stack) }
        requires node { IsTrue (is_node (run_setting F.Of.graph F.Of.stack) node) }
        ensures gives { SettleGives (run_setting F.Of.graph F.Of.stack) (shown self.old) role node result (shown self.new) };

    /// The next array of a file node that is due, as a piece of its group.
    fn save(&mut self, role: u32, node: u32) -> Save<F>
        requires role { role ≤ last_role (run_setting F.Of.graph F.Of.stack) }
        requires node { IsTrue (is_node (run_setting F.Of.graph F.Of.stack) node) }
        ensures gives { SaveGives F.name_of F.parts (run_setting F.Of.graph F.Of.stack) (shown self.old) role node result (shown self.new) }
        ensures lent { LendsPiece F.parts role result (shown self.new) };

    /// Takes a piece back once it is saved.
    fn saved(&mut self, role: u32, frame: F) -> Result<(), NotYours<F>>
        requires role { role ≤ last_role (run_setting F.Of.graph F.Of.stack) }
        requires brings { MaySaved F.name_of F.parts (shown self.old) role frame }
        ensures gives { SavedGives F.name_of (run_setting F.Of.graph F.Of.stack) (shown self.old) role frame result (shown self.new) };

    /// Ends the feed where every frame was offered.
    fn close(&mut self, role: u32) -> Settled
        requires role { role ≤ last_role (run_setting F.Of.graph F.Of.stack) }
        ensures gives { CloseGives (run_setting F.Of.graph F.Of.stack) (shown self.old) role result (shown self.new) };

    /// The role ends for want of memory. From then on nobody but the drain gets a frame or a job.
    fn leave(&mut self, role: u32)
        requires role { role ≤ last_role (run_setting F.Of.graph F.Of.stack) }
        ensures gives { LeaveGives (run_setting F.Of.graph F.Of.stack) (shown self.old) role (shown self.new) };

    /// Takes back what a role has in hand that has ended. What of it was handed in is kept, and the rest is taken anew later.
    fn reclaim(&mut self, role: u32, left: Left<F>) -> Result<(), NoReclaim<F>>
        requires role { role ≤ last_role (run_setting F.Of.graph F.Of.stack) }
        requires brings { MayReclaim F.name_of F.parts F.bytes_of (run_setting F.Of.graph F.Of.stack) (shown self.old) role left }
        ensures gives { ReclaimGives F.name_of (run_setting F.Of.graph F.Of.stack) (shown self.old) role left result (shown self.new) };

    /// How far the run has come.
    fn progress(&self) -> Progress
        ensures { result ≡ progress_of (run_setting F.Of.graph F.Of.stack) (past (shown self.now)) };

    /// The feed and all nodes have ended, and nothing is left anywhere.
    fn finished(&self) -> bool
        ensures finished { result ≡ is_finished (run_setting F.Of.graph F.Of.stack) (past (shown self.now)) }
        ensures legal { is_history (run_setting F.Of.graph F.Of.stack) (past (shown self.now)) ≡ true };

    /// The log, and for each node its measures in the order of emission.
    fn into_parts(self) -> (Log, Measures)
        ensures log { result.0.past ≡ past (shown self) }
        ensures measures { result.1 ≡ measured (run_measure F.Of.graph F.Of.stack) (run_setting F.Of.graph F.Of.stack) (past (shown self)) }
        ensures legal { is_history (run_setting F.Of.graph F.Of.stack) (past (shown self)) ≡ true };
}
