//! Puts: the entry, what its node keeps of the result, and what is on its way then.

ghost use Rattle.std.specs.Prelude.{◌≡◌, ◌<◌, ◌≤◌, ◌-◌, ◌∷◌, [], true, false, ◌+◌};
ghost use Rattle.board_rules.specs.Moving.{moved};
ghost use Rattle.flow_journal.specs.Setting.{is_node, is_maker, is_sorted, last_role, id_at};
ghost use Rattle.flow_journal.specs.Hands.{hand};
ghost use Rattle.flow_journal.specs.Histories.{is_legal, is_history};
ghost use Rattle.board_rules.specs.InHand.{is_job_on};
ghost use Rattle.flow_journal.specs.ResultNames.{result_name};
ghost use Rattle.board_rules.specs.States.{past, plain};
ghost use Rattle.board_rules.specs.RunMeasures.{run_setting, run_measure};
ghost use Rattle.run_course.specs.Puts.{job_arrays, passes_all, saves_all, put_of, fires_for, watches};
ghost use Rattle.nd_base.specs.declared.measure.Measure.{Measure};
ghost use Rattle.run_course.specs.Placing.{IsPlaced};
ghost use Rattle.nd_base.specs.declared.frame.FrameName.{FrameName};
ghost use Rattle.run_course.specs.Watched.{IsPutInRing};

use crate::Course;
use course_parts::{
    Placement, Watched, carry, carry_input, count_put, keep_unsaved, let_go, place, watch,
};
use flow_journal::{Entry, Why};
use nd_base::{FrameName, Held, Measure};

impl<F: Held> Course<F> {
    /// Logs the result of a job at a node that makes or passes arrays on and has no sort list. The arrays of the job are on their way
    /// then.
    pub fn put_plain(&mut self, role: u32, node: u32, name: FrameName, fired: bool)
        requires role { role ≤ last_role (run_setting F.Of.graph F.Of.stack) }
        requires node { is_node (run_setting F.Of.graph F.Of.stack) node ≡ true }
        requires kind { passes_all (run_setting F.Of.graph F.Of.stack) node ≡ true }
        requires unsorted { is_sorted (run_setting F.Of.graph F.Of.stack) node ≡ false }
        requires still { self.old.transit ≡ [] }
        requires hand { is_job_on node name (hand role (past self.old.told)) ≡ true }
        requires legal { is_legal (run_setting F.Of.graph F.Of.stack) (put_of (run_setting F.Of.graph F.Of.stack) role node name fired ∷ past self.old.told)
            ≡ true }
        ensures { self.new ≡ record self.old {
          told = plain (put_of (run_setting F.Of.graph F.Of.stack) role node name fired) ∷ self.old.told;
          transit = job_arrays (run_setting F.Of.graph F.Of.stack) node name;
        } }
    {
        let made = self.result_name(node, name);
        let makes = self.is_maker(node);
        count_put(&mut self.nodes[node as usize - 1]);
        let_go(&mut self.roles[role as usize]);
        carry(&mut self.transit, made, name, makes);
        self.log.push(Entry::Put {
            role,
            node,
            maker: made.maker,
            index: name.index,
            fired,
        });
    }

    /// The result of a job at a file node: it is to be saved.
    pub fn put_to_save(&mut self, role: u32, node: u32, name: FrameName, fired: bool)
        requires role { role ≤ last_role (run_setting F.Of.graph F.Of.stack) }
        requires node { is_node (run_setting F.Of.graph F.Of.stack) node ≡ true }
        requires kind { saves_all (run_setting F.Of.graph F.Of.stack) node ≡ true }
        requires still { self.old.transit ≡ [] }
        requires history { is_history (run_setting F.Of.graph F.Of.stack) (past self.old.told) ≡ true }
        requires hand { is_job_on node name (hand role (past self.old.told)) ≡ true }
        requires fired { fired ≡ fires_for (run_setting F.Of.graph F.Of.stack) node name }
        ensures { self.new ≡ record self.old {
          told = moved (run_setting F.Of.graph F.Of.stack)
              (plain (put_of (run_setting F.Of.graph F.Of.stack) role node name fired)) self.old.told;
        } }
    {
        keep_unsaved(&mut self.nodes[node as usize - 1], name);
        let_go(&mut self.roles[role as usize]);
        let FrameName { maker, index } = name;
        self.log.push(Entry::Put {
            role,
            node,
            maker,
            index,
            fired,
        });
    }

    /// Logs the result of a job at a node with a sort list, and that it goes out where it keeps step, or is dropped where the list is
    /// full.
    pub fn put_placed(
        &mut self,
        role: u32,
        node: u32,
        name: FrameName,
        measured: Option<Measure>,
        fired: bool,
    ) -> Placement
        requires role { role ≤ last_role (run_setting F.Of.graph F.Of.stack) }
        requires node { is_node (run_setting F.Of.graph F.Of.stack) node ≡ true }
        requires sorted { is_sorted (run_setting F.Of.graph F.Of.stack) node ≡ true }
        requires still { self.old.transit ≡ [] }
        requires history { is_history (run_setting F.Of.graph F.Of.stack) (past self.old.told) ≡ true }
        requires hand { is_job_on node name (hand role (past self.old.told)) ≡ true }
        requires measured { measured ≡ run_measure F.Of.graph F.Of.stack node name }
        requires fired { fired ≡ fires_for (run_setting F.Of.graph F.Of.stack) node name }
        ensures { IsPlaced (run_setting F.Of.graph F.Of.stack) role node name fired self.old self.new result }
    {
        let id = self.id_at(name.index);
        let made = self.result_name(node, name);
        let makes = self.is_maker(node);
        let tick = self.facts.tick;
        let placement = place(&mut self.nodes[node as usize - 1], id, tick, made, measured);
        let_go(&mut self.roles[role as usize]);
        let maker = made.maker;
        let index = name.index;
        self.log.push(Entry::Put {
            role,
            node,
            maker,
            index,
            fired,
        });
        match placement {
            Placement::Out => {
                carry(&mut self.transit, made, name, makes);
                self.log.push(Entry::Emit {
                    node,
                    maker,
                    index,
                    why: Why::Step,
                });
                Placement::Out
            }
            Placement::Waits => {
                carry_input(&mut self.transit, name, makes);
                Placement::Waits
            }
            Placement::Full => {
                carry(&mut self.transit, made, name, makes);
                self.facts.dropped += 1;
                self.log.push(Entry::SortDrop { node, maker, index });
                Placement::Full
            }
        }
    }

    /// Logs the result of a job at a circular node. What comes out of the ring is on its way then.
    pub fn put_in_ring(&mut self, role: u32, node: u32, name: FrameName, fired: bool) -> Watched
        requires role { role ≤ last_role (run_setting F.Of.graph F.Of.stack) }
        requires node { is_node (run_setting F.Of.graph F.Of.stack) node ≡ true }
        requires kind { watches (run_setting F.Of.graph F.Of.stack) node ≡ true }
        requires still { self.old.transit ≡ [] }
        requires history { is_history (run_setting F.Of.graph F.Of.stack) (past self.old.told) ≡ true }
        requires hand { is_job_on node name (hand role (past self.old.told)) ≡ true }
        requires fired { fired ≡ fires_for (run_setting F.Of.graph F.Of.stack) node name }
        ensures { IsPutInRing (run_setting F.Of.graph F.Of.stack) role node name fired self.old self.new result }
    {
        let state = &mut self.nodes[node as usize - 1];
        count_put(state);
        let watched = watch(&mut state.window, &mut self.transit, name, fired);
        let_go(&mut self.roles[role as usize]);
        let FrameName { maker, index } = name;
        self.log.push(Entry::Put {
            role,
            node,
            maker,
            index,
            fired,
        });
        watched
    }
}
