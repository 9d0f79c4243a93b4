//! The role that saves.

ghost use Rattle.std.specs.Prelude.{◌≡◌, ◌<◌, ◌-◌, ◌^◌, min, ℕ, List, [], ◌∷◌, Option, Some, true, false, length, map, is_some, slice_get, IsTrue};
ghost use Rattle.std.specs.Option.{option_map};
ghost use Rattle.std.specs.List.{list_all};
ghost use Rattle.nd_base.specs.GraphRules.{IsGraph};
ghost use Rattle.edge_traits.specs.Files.{Files};
ghost use Rattle.nd_stack.specs.KeptStacks.{IsKeptStack};
ghost use Rattle.graph_files.specs.NodeFiles.{NodeFile};
ghost use Rattle.flow_journal.specs.Setting.{last_role};
ghost use Rattle.flow_journal.specs.Hands.{hand};
ghost use Rattle.flow_journal.specs.Unsaved.{standing_saves};
ghost use Rattle.board_rules.specs.States.{past, lent_to};
ghost use Rattle.board_rules.specs.RunMeasures.{run_setting};
ghost use Rattle.flow_roles.specs.RoleMoves.{saver_logs, IsFresh};
ghost use Rattle.graph_files.specs.OpenFiles.{closed, file_nodes};
ghost use Rattle.flow_saver.specs.GivenBack.{given_back};
ghost use Rattle.flow_saver.specs.Saver.{saver_ends, piece_of, IsPieceOfHand, AreSaved, CountsSo, Start, IsSaving, IsToGiveBack, StepLeaves, RoleLeaves};
ghost use Rattle.flow_saver.specs.Saver.{CountsStep};
ghost use Rattle.flow_saver.specs.Turns.{AreNotesOf, HasGoneOn, AreNone, AreAt, Falls};

use crate::DuePiece;
use crate::piece::write_due;
use board_rules::Save;
use edge_traits::{Gate, Shelf};
use flow_journal::Watch;
use flow_roles::Desk;
use frame_store::Frame;
use graph_files::OpenFiles;
use nd_base::{Run, Stack};
use std::alloc::Global;
use std::sync::Wait;

/// What one save at a node came to.
#[derive(Drop)]
pub enum Step<F> {
    /// Nothing is due there.
    Nothing,
    /// A piece was saved and given back.
    Wrote,
    /// Memory was wanting for this piece, which isn't saved.
    Wants(DuePiece<F>),
}

/// Gives a piece back.
fn give_back<R: Run, D: Desk<Frame<R>>, W: Wait>(
    rt: &W,
    alloc: Global,
    desk: &D,
    pass: &mut D::Pass,
    role: u32,
    files: &OpenFiles,
    fault: bool,
    piece: Frame<R>,
)
    requires ours { D.ours desk.now pass.old }
    requires role { role ≡ last_role (run_setting R.graph R.stack) }
    requires held { (start : Start) × (held : Option Files) × IsToGiveBack R.graph R.stack start role (D.knows pass.old) files.now fault held piece }
    ensures ours { D.ours desk.now pass.new }
    ensures given { (start : Start) (held : Option Files) → IsToGiveBack R.graph R.stack start role (D.knows pass.old) files.now fault held piece
        → IsSaving R.graph R.stack start role (D.knows pass.new) files.now fault held }
    ensures goes { HasGoneOn (run_setting R.graph R.stack) AreNone (D.knows pass.old) (D.knows pass.new) }
{
    let Ok(()) = desk.saved(rt, alloc, pass, role, piece) else {
        unreachable!()
    };
}

/// Saves the next piece of file node `at`, if one is due, and gives it back. After a fault of the shelf it is given back unwritten.
fn save_one<R: Run, D: Desk<Frame<R>>, K: Shelf, W: Wait>(
    rt: &W,
    alloc: Global,
    desk: &D,
    pass: &mut D::Pass,
    role: u32,
    shelf: &mut K,
    stack: &Stack,
    files: &mut OpenFiles,
    fault: &mut bool,
    at: usize,
) -> Step<Frame<R>>
    requires ours { D.ours desk.now pass.old }
    requires role { role ≡ last_role (run_setting R.graph R.stack) }
    requires graph { IsGraph R.graph }
    requires stack { stack.now ≡ R.stack }
    requires kept { IsKeptStack R.stack }
    requires at { at < length files.old }
    requires saving { (start : Start) × IsSaving R.graph R.stack start role (D.knows pass.old) files.old fault.old (K.held shelf.old) }
    ensures ours { D.ours desk.now pass.new }
    ensures leaves { (start : Start) → IsSaving R.graph R.stack start role (D.knows pass.old) files.old fault.old (K.held shelf.old)
        → StepLeaves R.graph R.stack start role result (D.knows pass.new) files.new fault.new (K.held shelf.new) }
    ensures count { length files.new ≡ length files.old }
    ensures cause { CountsStep fault.old fault.new (K.faults shelf.old) (K.faults shelf.new) (K.held shelf.old) (K.held shelf.new) }
    ensures goes { (start : Start) → IsSaving R.graph R.stack start role (D.knows pass.old) files.old fault.old (K.held shelf.old)
        → (x : NodeFile) → slice_get (file_nodes R.graph R.stack start.prefix) at ≡ Some x
        → HasGoneOn (run_setting R.graph R.stack) (AreAt x.node) (D.knows pass.old) (D.knows pass.new) }
{
    let node = files.node(at);
    match desk.save(rt, alloc, pass, role, node) {
        Save::Busy => unreachable!(),
        Save::OutOfMemory => unreachable!(),
        Save::NotYet => Step::Nothing,
        Save::Piece {
            input,
            group,
            place,
            of,
        } => {
            let due = DuePiece {
                piece: input,
                at,
                group,
                place,
                of,
            };
            let Ok(()) = write_due(alloc, shelf, stack, files, fault, &due) else {
                return Step::Wants(due);
            };
            give_back::<R, D, W>(rt, alloc, desk, pass, role, files, *fault, due.piece);
            Step::Wrote
        }
    }
}

/// Saves what is due at file node `at`, piece by piece.
fn save_node<R: Run, D: Desk<Frame<R>>, K: Shelf, W: Wait>(
    rt: &W,
    alloc: Global,
    desk: &D,
    pass: &mut D::Pass,
    role: u32,
    shelf: &mut K,
    stack: &Stack,
    files: &mut OpenFiles,
    fault: &mut bool,
    at: usize,
) -> Step<Frame<R>>
    requires ours { D.ours desk.now pass.old }
    requires role { role ≡ last_role (run_setting R.graph R.stack) }
    requires graph { IsGraph R.graph }
    requires stack { stack.now ≡ R.stack }
    requires kept { IsKeptStack R.stack }
    requires at { at < length files.old }
    requires saving { (start : Start) × IsSaving R.graph R.stack start role (D.knows pass.old) files.old fault.old (K.held shelf.old) }
    ensures ours { D.ours desk.now pass.new }
    ensures leaves { (start : Start) → IsSaving R.graph R.stack start role (D.knows pass.old) files.old fault.old (K.held shelf.old)
        → StepLeaves R.graph R.stack start role result (D.knows pass.new) files.new fault.new (K.held shelf.new) }
    ensures count { length files.new ≡ length files.old }
    ensures cause { CountsStep fault.old fault.new (K.faults shelf.old) (K.faults shelf.new) (K.held shelf.old) (K.held shelf.new) }
    ensures goes { (start : Start) → IsSaving R.graph R.stack start role (D.knows pass.old) files.old fault.old (K.held shelf.old)
        → (x : NodeFile) → slice_get (file_nodes R.graph R.stack start.prefix) at ≡ Some x
        → HasGoneOn (run_setting R.graph R.stack) (AreAt x.node) (D.knows pass.old) (D.knows pass.new) }
{
    let mut any = false;
    for _ in rt.forever() {
        match save_one(rt, alloc, desk, pass, role, shelf, stack, files, fault, at) {
            Step::Nothing => return if any { Step::Wrote } else { Step::Nothing },
            Step::Wrote => any = true,
            Step::Wants(due) => return Step::Wants(due),
        }
    }
    unreachable!()
}

/// Saves what is due at each file node.
fn save_turn<R: Run, D: Desk<Frame<R>>, K: Shelf, W: Wait>(
    rt: &W,
    alloc: Global,
    desk: &D,
    pass: &mut D::Pass,
    role: u32,
    shelf: &mut K,
    stack: &Stack,
    files: &mut OpenFiles,
    fault: &mut bool,
) -> Step<Frame<R>>
    requires ours { D.ours desk.now pass.old }
    requires role { role ≡ last_role (run_setting R.graph R.stack) }
    requires graph { IsGraph R.graph }
    requires stack { stack.now ≡ R.stack }
    requires kept { IsKeptStack R.stack }
    requires saving { (start : Start) × IsSaving R.graph R.stack start role (D.knows pass.old) files.old fault.old (K.held shelf.old) }
    ensures ours { D.ours desk.now pass.new }
    ensures leaves { (start : Start) → IsSaving R.graph R.stack start role (D.knows pass.old) files.old fault.old (K.held shelf.old)
        → StepLeaves R.graph R.stack start role result (D.knows pass.new) files.new fault.new (K.held shelf.new) }
    ensures cause { CountsStep fault.old fault.new (K.faults shelf.old) (K.faults shelf.new) (K.held shelf.old) (K.held shelf.new) }
    ensures goes { (start : Start) → IsSaving R.graph R.stack start role (D.knows pass.old) files.old fault.old (K.held shelf.old)
        → HasGoneOn (run_setting R.graph R.stack) Falls (D.knows pass.old) (D.knows pass.new) }
{
    let mut any = false;
    for at in 0..files.count() {
        match save_node(rt, alloc, desk, pass, role, shelf, stack, files, fault, at) {
            Step::Nothing => {}
            Step::Wrote => any = true,
            Step::Wants(due) => return Step::Wants(due),
        }
    }
    if any { Step::Wrote } else { Step::Nothing }
}

/// The end of the role that saves: its pass, the piece that it has in hand, with its place, the files with those that are open, whether the shelf
/// failed, and whether memory was wanting.
#[derive(Drop)]
pub struct SaveEnd<F, P> {
    pub pass: P,
    pub left: Option<DuePiece<F>>,
    pub files: OpenFiles,
    pub fault: bool,
    pub want: bool,
}

/// Saves the files of a run while the others work: on each turn it asks how far the run has come, notes that, and saves what is due at
/// each file node, until the run is done, some role has left, or memory is wanting for a piece. A note for which memory is wanting is
/// passed over. After a fault of the shelf pieces are given back unwritten.
pub fn save_role<R: Run, D: Desk<Frame<R>>, K: Shelf, N: Watch, G: Gate, W: Wait>(
    rt: &W,
    alloc: Global,
    desk: &D,
    pass: D::Pass,
    role: u32,
    shelf: &mut K,
    watch: &mut N,
    stack: &Stack,
    files: OpenFiles,
    gate: &G,
) -> SaveEnd<Frame<R>, D::Pass>
    requires ours { D.ours desk.now pass }
    requires fresh { IsFresh role (D.knows pass) }
    requires role { role ≡ last_role (run_setting R.graph R.stack) }
    requires graph { IsGraph R.graph }
    requires stack { stack.now ≡ R.stack }
    requires kept { IsKeptStack R.stack }
    requires files { (prefix : List ℕ) × (files ≡ file_nodes R.graph R.stack prefix) }
    ensures ours { D.ours desk.now result.pass }
    ensures role { (D.knows result.pass).role ≡ role }
    ensures owned { (D.knows result.pass).said.owned ≡ true }
    ensures moves { list_all saver_logs (past (D.knows result.pass).made) ≡ true }
    ensures last { IsTrue (saver_ends (run_setting R.graph R.stack) (D.knows result.pass).said.last (past (D.knows result.pass).seen) result.want) }
    ensures left { IsPieceOfHand (lent_to role (D.knows result.pass).made) (hand role (past (D.knows result.pass).made)) (option_map piece_of result.left) }
    ensures wants { result.want ≡ is_some result.left }
    ensures nodes { map closed result.files ≡ files }
    ensures history { result.want ≡ false → (v : ℕ) → standing_saves v (past (D.knows result.pass).seen) ≡ given_back v (past (D.knows result.pass).made) }
    ensures saved { AreSaved R.graph R.stack (K.held shelf.old) (past (D.knows result.pass).made) (past (D.knows result.pass).seen) result.files result.fault
        (K.held shelf.new) }
    ensures leaves { (prefix : List ℕ) → files ≡ file_nodes R.graph R.stack prefix
        → RoleLeaves R.graph R.stack (record { prefix = prefix; made = []; held = K.held shelf.old }) role result.left
        (D.knows result.pass) result.files result.fault (K.held shelf.new) }
    ensures fault { CountsSo result.fault (K.faults shelf.old) (K.faults shelf.new) }
    ensures notes { (notes : AreNotesOf (run_setting R.graph R.stack) (past (D.knows result.pass).seen) result.want (N.watched watch.old) (N.watched watch.new))
        × ((D.knows result.pass).said.asked ≡ min (length (notes.last ∷ notes.earlier)) (2 ^ 64 - 1)) }
    ensures home { N.home watch.new ≡ N.home watch.old }
{
    let mut pass = pass;
    let mut files = files;
    let mut fault = false;
    for _ in rt.forever() {
        let progress = desk.progress(rt, alloc, &mut pass, role);
        let _ = watch.note(alloc, &progress);
        if progress.done || progress.left {
            return SaveEnd {
                pass,
                left: None,
                files,
                fault,
                want: false,
            };
        }
        match save_turn(
            rt, alloc, desk, &mut pass, role, shelf, stack, &mut files, &mut fault,
        ) {
            Step::Nothing => gate.idle(),
            Step::Wrote => {}
            Step::Wants(due) => {
                return SaveEnd {
                    pass,
                    left: Some(due),
                    files,
                    fault,
                    want: true,
                };
            }
        }
    }
    unreachable!()
}
