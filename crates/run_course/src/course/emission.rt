//! What an emission adds: its entry, and each offer.

ghost use Rattle.std.specs.Prelude.{◌≡◌, ◌<◌, ◌∷◌, ℕ, true, false, length, drop, slice_get, Some};
ghost use Rattle.nd_base.specs.declared.frame.FrameName.{FrameName};
ghost use Rattle.nd_base.specs.declared.measure.Measure.{Measure};
ghost use Rattle.flow_journal.specs.declared.entry.Entry.TheVariants.{Accept, Emit, Full};
ghost use Rattle.flow_journal.specs.Setting.{is_node, is_sorted, children, node};
ghost use Rattle.flow_journal.specs.Queued.{has_room};
ghost use Rattle.flow_journal.specs.Histories.{is_legal};
ghost use Rattle.flow_journal.specs.Following.{offer};
ghost use Rattle.flow_journal.specs.Turns.{deals, turn, has_just_emitted};
ghost use Rattle.board_rules.specs.States.{past, plain};
ghost use Rattle.board_rules.specs.RunMeasures.{run_setting, run_measure};
ghost use Rattle.run_course.specs.Leaving.{OnlyDealt};

use crate::Course;
use course_parts::keep_measure;
use flow_journal::{Entry, Why};
use nd_base::{FrameName, Held, Measure};

impl<F: Held> Course<F> {
    /// Lets go of the hold that the array on its way has.
    pub fn release(&mut self)
        requires some { 0 < length self.old.transit }
        ensures { self.new ≡ record self.old { transit = drop 1 self.old.transit } }
    {
        let Some(name) = self.transit.front() else {
            unreachable!()
        };
        let block = self.block(*name);
        let _ = self.transit.pop_front();
        self.pool.drop_hold(block);
    }

    /// The child's queue takes the array on its way.
    pub fn accept(&mut self, child: u32, name: FrameName)
        requires child { is_node (run_setting F.Of.graph F.Of.stack) child ≡ true }
        requires next { slice_get self.old.transit 0 ≡ Some name }
        requires room { has_room (run_setting F.Of.graph F.Of.stack) (past self.old.told) child ≡ true }
        requires legal { is_legal (run_setting F.Of.graph F.Of.stack) (Accept child name.maker name.index ∷ past self.old.told) ≡ true }
        requires together { (v : ℕ) → deals (run_setting F.Of.graph F.Of.stack) v ≡ true → has_just_emitted v (past self.old.told) ≡ false }
        ensures { self.new ≡ record self.old { told = plain (Accept child name.maker name.index) ∷ self.old.told } }
    {
        let FrameName { maker, index } = name;
        let block = self.block(name);
        let node = &mut self.nodes[child as usize - 1];
        let Ok(()) = node.inbox.offer(name) else {
            unreachable!()
        };
        self.pool.hold(block);
        self.facts.came += 1;
        self.log.push(Entry::Accept {
            node: child,
            maker,
            index,
        });
    }

    /// The child's queue is full, and drops the array.
    pub fn fill(&mut self, child: u32, name: FrameName)
        requires legal { is_legal (run_setting F.Of.graph F.Of.stack) (Full child name.maker name.index ∷ past self.old.told) ≡ true }
        requires together { (v : ℕ) → deals (run_setting F.Of.graph F.Of.stack) v ≡ true → has_just_emitted v (past self.old.told) ≡ false }
        ensures { self.new ≡ record self.old { told = plain (Full child name.maker name.index) ∷ self.old.told } }
    {
        let FrameName { maker, index } = name;
        self.facts.came += 1;
        self.facts.dropped += 1;
        self.log.push(Entry::Full {
            node: child,
            maker,
            index,
        });
    }

    /// A node deals the array on its way to a child with room.
    pub fn deal_to(&mut self, from: u32, next_turn: u32, child: u32, name: FrameName)
        requires from { is_node (run_setting F.Of.graph F.Of.stack) from ≡ true }
        requires child { is_node (run_setting F.Of.graph F.Of.stack) child ≡ true }
        requires next { slice_get self.old.transit 0 ≡ Some name }
        requires room { has_room (run_setting F.Of.graph F.Of.stack) (past self.old.told) child ≡ true }
        requires legal { is_legal (run_setting F.Of.graph F.Of.stack) (Accept child name.maker name.index ∷ past self.old.told) ≡ true }
        requires turn { next_turn ≡ turn (run_setting F.Of.graph F.Of.stack) from (Accept child name.maker name.index ∷ past self.old.told) }
        requires only { OnlyDealt (run_setting F.Of.graph F.Of.stack) from (past self.old.told) }
        ensures { self.new ≡ record self.old { told = plain (Accept child name.maker name.index) ∷ self.old.told } }
    {
        let FrameName { maker, index } = name;
        let block = self.block(name);
        self.nodes[from as usize - 1].turn = next_turn;
        let Ok(()) = self.nodes[child as usize - 1].inbox.offer(name) else {
            unreachable!()
        };
        self.pool.hold(block);
        self.facts.came += 1;
        self.log.push(Entry::Accept {
            node: child,
            maker,
            index,
        });
    }

    /// A node deals the array on its way to a child whose queue is full, and drops it.
    pub fn deal_full(&mut self, from: u32, next_turn: u32, child: u32, name: FrameName)
        requires from { is_node (run_setting F.Of.graph F.Of.stack) from ≡ true }
        requires legal { is_legal (run_setting F.Of.graph F.Of.stack) (Full child name.maker name.index ∷ past self.old.told) ≡ true }
        requires turn { next_turn ≡ turn (run_setting F.Of.graph F.Of.stack) from (Full child name.maker name.index ∷ past self.old.told) }
        requires only { OnlyDealt (run_setting F.Of.graph F.Of.stack) from (past self.old.told) }
        ensures { self.new ≡ record self.old { told = plain (Full child name.maker name.index) ∷ self.old.told } }
    {
        let FrameName { maker, index } = name;
        self.nodes[from as usize - 1].turn = next_turn;
        self.facts.came += 1;
        self.facts.dropped += 1;
        self.log.push(Entry::Full {
            node: child,
            maker,
            index,
        });
    }

    /// Logs that the array on its way goes out of the driver.
    pub fn leave_driver(&mut self, name: FrameName, why: Why)
        requires next { slice_get self.old.transit 0 ≡ Some name }
        requires legal { is_legal (run_setting F.Of.graph F.Of.stack) (Emit 0 name.maker name.index why ∷ past self.old.told) ≡ true }
        ensures { self.new ≡ record self.old { told = plain (Emit 0 name.maker name.index why) ∷ self.old.told } }
    {
        self.log.push(Entry::Emit {
            node: 0,
            maker: name.maker,
            index: name.index,
            why,
        });
    }

    /// Logs that the array on its way goes out of a node without a sort list, with its measure at a statistics node.
    pub fn leave_node(&mut self, node: u32, name: FrameName, why: Why, measured: Option<Measure>)
        requires node { is_node (run_setting F.Of.graph F.Of.stack) node ≡ true }
        requires unsorted { is_sorted (run_setting F.Of.graph F.Of.stack) node ≡ false }
        requires measured { measured ≡ run_measure F.Of.graph F.Of.stack node name }
        requires next { slice_get self.old.transit 0 ≡ Some name }
        requires legal { is_legal (run_setting F.Of.graph F.Of.stack) (Emit node name.maker name.index why ∷ past self.old.told) ≡ true }
        ensures { self.new ≡ record self.old { told = plain (Emit node name.maker name.index why) ∷ self.old.told } }
    {
        let state = &mut self.nodes[node as usize - 1];
        keep_measure(&mut state.measures, measured);
        self.log.push(Entry::Emit {
            node,
            maker: name.maker,
            index: name.index,
            why,
        });
    }

    /// The place of the child whose turn it is, at a node that deals and has children.
    pub fn turn(&self, node: u32) -> u32
        requires node { is_node (run_setting F.Of.graph F.Of.stack) node ≡ true }
        requires deals { deals (run_setting F.Of.graph F.Of.stack) node ≡ true }
        ensures { 0 < length (children (run_setting F.Of.graph F.Of.stack) node) → result ≡ turn (run_setting F.Of.graph F.Of.stack) node (past self.now.told) }
    {
        self.state(node).turn
    }
}
