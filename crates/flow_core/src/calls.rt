//! The calls of a board.

ghost use Rattle.std.specs.Prelude.{◌≤◌};
ghost use Rattle.flow_journal.specs.Setting.{last_role};
ghost use Rattle.board_rules.specs.RunMeasures.{run_setting, run_measure};
ghost use Rattle.board_rules.specs.Working.{IsAtNode, MayPut, PutGives};
ghost use Rattle.board_rules.specs.Leaving.{MayReclaim, ReclaimGives};

use crate::Board;
use board_rules::{
    BoardCalls, Done, HandName, Left, Load, Measures, NoReclaim, NotYours, Save, Settled, Take,
};
use flow_journal::{Log, Progress};
use frame_table::FrameTable;
use nd_base::{Held, OutOfMemory, Plan};
use pool_ledger::Refused;
use run_course::{Course, Hand, MeasureRoom};
use std::alloc::Global;

/// The driver's number.
const DRIVER: u32 = 0;

impl<F: Held> BoardCalls<F> for Board<F> {
    ghost shown = { λ b. b };

    fn start(alloc: Global, plan: &Plan) -> Result<Board<F>, OutOfMemory> {
        Ok(Board {
            course: Course::new(alloc, plan)?,
            table: FrameTable::new(alloc),
            room: MeasureRoom::new(alloc)?,
        })
    }

    fn load(&mut self, alloc: Global, role: u32, tick: u64) -> Load<F::Blank> {
        if let Some(refusal) = self.course.load_refusal(role) {
            return refusal;
        }
        match self.course.peek(DRIVER) {
            Ok(grant) => self.load_granted(alloc, role, tick, grant),
            Err(Refused { held }) => self.load_refused(role, tick, held),
        }
    }

    fn issue(&mut self, role: u32, frame: F) -> Result<(), NotYours<F>> {
        let name = frame.name();
        if !self.course.is_load_of(role, name) {
            let given = HandName { node: DRIVER, name };
            return Err(NotYours::of_frame(self.course.hand_name(role), given, frame));
        }
        let Some(block) = self.course.granted(role) else {
            unreachable!()
        };
        self.table.keep(block.number, frame);
        flow_emit::issue(&mut self.course, role, name.index);
        Ok(())
    }

    fn take(&mut self, alloc: Global, role: u32, node: u32) -> Take<F> {
        if let Some(refusal) = self.course.take_refusal(role, node) {
            return refusal;
        }
        if !self.course.is_maker(node) {
            return self.take_shared(role, node);
        }
        match self.course.peek(node) {
            Ok(grant) => self.take_granted(alloc, role, node, grant),
            Err(Refused { held }) => self.take_refused(role, node, held),
        }
    }

    fn put(&mut self, role: u32, done: Done<F>) -> Result<(), NotYours<F>>
        requires role { role ≤ last_role (run_setting F.Of.graph F.Of.stack) }
        requires node { IsAtNode (run_setting F.Of.graph F.Of.stack) done }
        requires of_job { MayPut F.name_of F.parts (run_measure F.Of.graph F.Of.stack) (run_setting F.Of.graph F.Of.stack) self.old role done }
        ensures gives { PutGives F.name_of (run_setting F.Of.graph F.Of.stack) self.old role done result self.new }
    {
        let name = done.input.name();
        let node = done.node;
        if !self.course.is_job_on(role, node, name) {
            return Err(NotYours {
                kept: self.course.hand_name(role),
                given: HandName { node, name },
                back: done,
            });
        }
        let Done {
            node: _,
            input,
            made,
            measured,
            fired,
        } = done;
        match made {
            Some(made) => self.put_made(role, node, input, made, measured, fired),
            None => self.put_shared(role, node, input, measured, fired),
        }
        Ok(())
    }

    fn settle(&mut self, role: u32, node: u32) -> Settled {
        if self.course.waits_to_settle(node) {
            return Settled::NotYet;
        }
        if !self.course.is_settled(node) {
            flow_emit::settle(&mut self.course, role, node);
        }
        Settled::Done
    }

    fn save(&mut self, role: u32, node: u32) -> Save<F> {
        if let Some(refusal) = self.course.save_refusal(role, node) {
            return refusal;
        }
        let name = self.course.next_unsaved(node);
        let block = self.course.block(name);
        let Ok(input) = self.table.lend(block) else {
            return Save::OutOfMemory;
        };
        let place = self.course.next_place(node);
        let of = self.course.next_size(node);
        let group = self.course.save(role, node, &input);
        Save::Piece {
            input,
            group,
            place,
            of,
        }
    }

    fn saved(&mut self, role: u32, frame: F) -> Result<(), NotYours<F>> {
        let name = frame.name();
        if !self.course.is_piece_on(role, name) {
            let node = self.course.hand_node(role);
            let given = HandName { node, name };
            return Err(NotYours::of_frame(self.course.hand_name(role), given, frame));
        }
        let block = self.course.block(name);
        self.table.give_back(block, frame);
        flow_emit::saved(&mut self.course, role, name);
        Ok(())
    }

    fn close(&mut self, role: u32) -> Settled {
        if self.course.waits_to_close() {
            return Settled::NotYet;
        }
        if !self.course.is_closed() {
            self.course.close(role);
        }
        Settled::Done
    }

    fn leave(&mut self, role: u32) {
        if !self.course.has_left(role) {
            self.course.leave(role);
        }
    }

    fn reclaim(&mut self, role: u32, left: Left<F>) -> Result<(), NoReclaim<F>>
        requires role { role ≤ last_role (run_setting F.Of.graph F.Of.stack) }
        requires brings { MayReclaim F.name_of F.parts F.bytes_of (run_setting F.Of.graph F.Of.stack) self.old role left }
        ensures gives { ReclaimGives F.name_of (run_setting F.Of.graph F.Of.stack) self.old role left result self.new }
    {
        if let Some(why) = self.course.reclaim_refusal(role) {
            return Err(NoReclaim { why, back: left });
        }
        match self.course.hand(role) {
            Hand::Free => unreachable!(),
            Hand::Loaded { block, .. } => self.reclaim_load(role, block.number, left),
            Hand::Job { name, block, .. } => match block {
                Some(block) => self.reclaim_making(role, name, block.number, left),
                None => self.reclaim_shared(role, name, left),
            },
            Hand::Piece { name, .. } => self.reclaim_shared(role, name, left),
        }
        Ok(())
    }

    fn progress(&self) -> Progress {
        self.course.progress()
    }

    fn finished(&self) -> bool {
        self.course.finished()
    }

    fn into_parts(self) -> (Log, Measures) {
        let Board {
            course,
            table: _,
            room,
        } = self;
        let (log, lists) = course.into_parts(room);
        (log, Measures::new(lists))
    }
}
