//! Moves that nothing follows, and the first entries of others.

ghost use Rattle.std.specs.Prelude.{◌≡◌, ◌<◌, ◌≤◌, ◌∷◌, [], true, false, length, Some, None, max};
ghost use Rattle.nd_base.specs.declared.frame.FrameName.{FrameName};
ghost use Rattle.flow_journal.specs.declared.entry.Entry.TheVariants.{Close, Leave, Take, Save, Saved, PoolDrop, LoadRefused, Issue, Tick, Settle};
ghost use Rattle.pool_ledger.specs.Grants.{Refused};
ghost use Rattle.flow_journal.specs.Setting.{last_role, node as node_of, is_node, is_maker};
ghost use Rattle.flow_journal.specs.Hands.{hand};
ghost use Rattle.flow_journal.specs.Ended.{is_closed, has_left, now, is_settled};
ghost use Rattle.flow_journal.specs.Offered.{next_index};
ghost use Rattle.flow_journal.specs.Queued.{queued};
ghost use Rattle.flow_journal.specs.Unsaved.{unsaved, standing_saves, group_of};
ghost use Rattle.flow_journal.specs.Accounts.{held, grant};
ghost use Rattle.flow_journal.specs.FirstEntries.{is_next, is_load_of};
ghost use Rattle.flow_journal.specs.Histories.{is_history, is_legal};
ghost use Rattle.board_rules.specs.States.{past, plain, lends};
ghost use Rattle.board_rules.specs.Moving.{moved};
ghost use Rattle.board_rules.specs.InHand.{hand_node, is_piece_on};
ghost use Rattle.board_rules.specs.Feeding.{waits_to_close, load_refusal};
ghost use Rattle.board_rules.specs.Working.{take_refusal};
ghost use Rattle.board_rules.specs.Saving.{save_refusal};
ghost use Rattle.board_rules.specs.RunMeasures.{run_setting};
ghost use Rattle.flow_journal.specs.Rings.{ring};
ghost use Rattle.run_course.specs.Puts.{watches};

use crate::Course;
use course_parts::{Hand, NodeWork, give_up_ring};
use flow_journal::Entry;
use nd_base::{FrameName, Held};

impl<F: Held> Course<F> {
    /// The feed ends.
    pub fn close(&mut self, role: u32)
        requires still { self.old.transit ≡ [] }
        requires role { role ≤ last_role (run_setting F.Of.graph F.Of.stack) }
        requires history { is_history (run_setting F.Of.graph F.Of.stack) (past self.old.told) ≡ true }
        requires open { is_closed (past self.old.told) ≡ false }
        requires offered { waits_to_close (run_setting F.Of.graph F.Of.stack) (past self.old.told) ≡ false }
        ensures { self.new ≡ record self.old { told = moved (run_setting F.Of.graph F.Of.stack) (plain (Close role)) self.old.told } }
    {
        self.facts.closed = true;
        self.log.push(Entry::Close { role });
    }

    /// The role ends for want of memory.
    pub fn leave(&mut self, role: u32)
        requires still { self.old.transit ≡ [] }
        requires role { role ≤ last_role (run_setting F.Of.graph F.Of.stack) }
        requires history { is_history (run_setting F.Of.graph F.Of.stack) (past self.old.told) ≡ true }
        requires stays { has_left role (past self.old.told) ≡ false }
        ensures { self.new ≡ record self.old { told = moved (run_setting F.Of.graph F.Of.stack) (plain (Leave role)) self.old.told } }
    {
        self.roles[role as usize].has_left = true;
        self.facts.left = true;
        self.log.push(Entry::Leave { role });
    }

    /// The next array of the queue of a node that makes none goes out as a job, of which this is the part.
    pub fn take(&mut self, role: u32, node: u32, part: &F)
        requires still { self.old.transit ≡ [] }
        requires role { role ≤ last_role (run_setting F.Of.graph F.Of.stack) }
        requires node { is_node (run_setting F.Of.graph F.Of.stack) node ≡ true }
        requires history { is_history (run_setting F.Of.graph F.Of.stack) (past self.old.told) ≡ true }
        requires allowed { take_refusal {F = F} {B = F.Blank} {O = F.Of} (run_setting F.Of.graph F.Of.stack) role node (past self.old.told) ≡ None }
        requires passes { is_maker (run_setting F.Of.graph F.Of.stack) node ≡ false }
        requires next { is_next (F.name_of part.now) (queued node (past self.old.told)) ≡ true }
        ensures { self.new ≡ record self.old {
          told = moved (run_setting F.Of.graph F.Of.stack)
              (lends (Take role node (F.name_of part.now).maker (F.name_of part.now).index) (F.parts part.now)) self.old.told;
        } }
    {
        let name = part.name();
        let state = &mut self.nodes[node as usize - 1];
        let _ = state.inbox.pop();
        state.jobs += 1;
        self.roles[role as usize].hand = Hand::Job {
            node,
            name,
            block: None,
        };
        let FrameName { maker, index } = name;
        let entry = Entry::Take {
            role,
            node,
            maker,
            index,
        };
        self.log.push_lent(entry, part);
    }

    /// The pool refuses the block for the next array of the queue of a node that makes arrays: the array is dropped, and on its way then, with
    /// its hold.
    pub fn note_drop(&mut self, role: u32, node: u32) -> FrameName
        requires still { self.old.transit ≡ [] }
        requires role { role ≤ last_role (run_setting F.Of.graph F.Of.stack) }
        requires node { is_node (run_setting F.Of.graph F.Of.stack) node ≡ true }
        requires history { is_history (run_setting F.Of.graph F.Of.stack) (past self.old.told) ≡ true }
        requires allowed { take_refusal {F = F} {B = F.Blank} {O = F.Of} (run_setting F.Of.graph F.Of.stack) role node (past self.old.told) ≡ None }
        requires makes { is_maker (run_setting F.Of.graph F.Of.stack) node ≡ true }
        requires refused { grant (run_setting F.Of.graph F.Of.stack) (past self.old.told) ((run_setting F.Of.graph F.Of.stack).need node) ≡ Refused }
        ensures next { is_next result (queued node (past self.old.told)) ≡ true }
        ensures told { self.new ≡ record {
          transit = result ∷ [];
          told =
              plain (PoolDrop role node result.maker result.index ((run_setting F.Of.graph F.Of.stack).need node)
              (held (run_setting F.Of.graph F.Of.stack) (past self.old.told))) ∷ self.old.told;
        } }
    {
        let place = node as usize - 1;
        let need = self.rules.nodes.as_slice()[place].need;
        let held = self.pool.held();
        let Some(name) = self.nodes[place].inbox.pop() else {
            unreachable!()
        };
        self.facts.dropped += 1;
        self.transit.push_back_reserved(name);
        let FrameName { maker, index } = name;
        self.log.push(Entry::PoolDrop {
            role,
            node,
            maker,
            index,
            need,
            held,
        });
        name
    }

    /// The group of the next piece of a node, or 0 where it saves nothing.
    pub fn next_group(&self, node: u32) -> u32
        requires { is_node (run_setting F.Of.graph F.Of.stack) node ≡ true }
        ensures { result ≡ group_of (node_of (run_setting F.Of.graph F.Of.stack) node).work (length (standing_saves node (past self.now.told))) }
    {
        let place = node as usize - 1;
        match self.rules.nodes.as_slice()[place].work {
            NodeWork::Saves { count, .. } => self.nodes[place].saves / count,
            NodeWork::Makes | NodeWork::Passes | NodeWork::Deals | NodeWork::Watches { .. } => 0,
        }
    }

    /// The next array of a file node that is due goes out as a piece, of which this is the part. The answer is its group.
    pub fn save(&mut self, role: u32, node: u32, part: &F) -> u32
        requires still { self.old.transit ≡ [] }
        requires role { role ≤ last_role (run_setting F.Of.graph F.Of.stack) }
        requires node { is_node (run_setting F.Of.graph F.Of.stack) node ≡ true }
        requires history { is_history (run_setting F.Of.graph F.Of.stack) (past self.old.told) ≡ true }
        requires allowed { save_refusal {F = F} (run_setting F.Of.graph F.Of.stack) role node (past self.old.told) ≡ None }
        requires next { is_next (F.name_of part.now) (unsaved (run_setting F.Of.graph F.Of.stack) node (past self.old.told)) ≡ true }
        ensures group { result ≡ group_of (node_of (run_setting F.Of.graph F.Of.stack) node).work (length (standing_saves node (past self.old.told))) }
        ensures told { self.new ≡ record self.old {
          told = moved (run_setting F.Of.graph F.Of.stack)
              (lends (Save role node (F.name_of part.now).maker (F.name_of part.now).index result) (F.parts part.now)) self.old.told;
        } }
    {
        let name = part.name();
        let group = self.next_group(node);
        let state = &mut self.nodes[node as usize - 1];
        let _ = state.unsaved.pop_front();
        state.saves += 1;
        state.saving = true;
        self.roles[role as usize].hand = Hand::Piece { node, name };
        let FrameName { maker, index } = name;
        let entry = Entry::Save {
            role,
            node,
            maker,
            index,
            group,
        };
        self.log.push_lent(entry, part);
        group
    }

    /// The array in the hand of the role, a piece, is saved. It is on its way then, with its hold.
    pub fn note_saved(&mut self, role: u32, node: u32, name: FrameName)
        requires still { self.old.transit ≡ [] }
        requires role { role ≤ last_role (run_setting F.Of.graph F.Of.stack) }
        requires history { is_history (run_setting F.Of.graph F.Of.stack) (past self.old.told) ≡ true }
        requires hand { is_piece_on name (hand role (past self.old.told)) ≡ true }
        requires node { node ≡ hand_node (hand role (past self.old.told)) }
        ensures { self.new ≡ record { transit = name ∷ []; told = plain (Saved role node name.maker name.index) ∷ self.old.told } }
    {
        self.nodes[node as usize - 1].saving = false;
        self.roles[role as usize].hand = Hand::Free;
        self.facts.saved += 1;
        self.transit.push_back_reserved(name);
        let FrameName { maker, index } = name;
        self.log.push(Entry::Saved {
            role,
            node,
            maker,
            index,
        });
    }

    /// The frame in the hand of the role is issued. It is on its way then.
    pub fn note_issue(&mut self, role: u32, index: u32)
        requires still { self.old.transit ≡ [] }
        requires role { role ≤ last_role (run_setting F.Of.graph F.Of.stack) }
        requires history { is_history (run_setting F.Of.graph F.Of.stack) (past self.old.told) ≡ true }
        requires hand { is_load_of index (hand role (past self.old.told)) ≡ true }
        ensures { self.new ≡ record { transit = record { maker = 0; index = index } ∷ []; told = plain (Issue role index) ∷ self.old.told } }
    {
        self.roles[role as usize].hand = Hand::Free;
        self.facts.loaded = false;
        self.transit
            .push_back_reserved(FrameName { maker: 0, index });
        self.log.push(Entry::Issue { role, index });
    }

    /// The pool refuses the block for the next frame, which is not offered again.
    pub fn note_refusal(&mut self, role: u32)
        requires still { self.old.transit ≡ [] }
        requires role { role ≤ last_role (run_setting F.Of.graph F.Of.stack) }
        requires history { is_history (run_setting F.Of.graph F.Of.stack) (past self.old.told) ≡ true }
        requires allowed { load_refusal {B = F.Blank} (run_setting F.Of.graph F.Of.stack) role (past self.old.told) ≡ None }
        requires refused { grant (run_setting F.Of.graph F.Of.stack) (past self.old.told) ((run_setting F.Of.graph F.Of.stack).need 0) ≡ Refused }
        ensures { self.new ≡ record self.old {
          told =
              plain (LoadRefused role (next_index (past self.old.told)) ((run_setting F.Of.graph F.Of.stack).need 0)
              (held (run_setting F.Of.graph F.Of.stack) (past self.old.told))) ∷ self.old.told;
        } }
    {
        let index = self.facts.offered;
        let need = self.rules.need;
        let held = self.pool.held();
        self.facts.offered += 1;
        self.log.push(Entry::LoadRefused {
            role,
            index,
            need,
            held,
        });
    }

    /// Logs the tick, or the one before where that is greater.
    pub fn note_tick(&mut self, tick: u64)
        requires { is_legal (run_setting F.Of.graph F.Of.stack) (Tick (max (now (past self.old.told)) tick) ∷ past self.old.told) ≡ true }
        ensures { self.new ≡ record self.old { told = plain (Tick (max (now (past self.old.told)) tick)) ∷ self.old.told } }
    {
        let tick = self.facts.tick.max(tick);
        self.facts.tick = tick;
        self.log.push(Entry::Tick { tick });
    }

    /// A circular node is settled. Its ring is on its way then.
    pub fn note_ring(&mut self, role: u32, node: u32)
        requires still { self.old.transit ≡ [] }
        requires node { is_node (run_setting F.Of.graph F.Of.stack) node ≡ true }
        requires kind { watches (run_setting F.Of.graph F.Of.stack) node ≡ true }
        requires unsettled { is_settled node (past self.old.told) ≡ false }
        requires legal { is_legal (run_setting F.Of.graph F.Of.stack) (Settle role node ∷ past self.old.told) ≡ true }
        ensures { self.new ≡ record {
          told = plain (Settle role node) ∷ self.old.told;
          transit = ring (run_setting F.Of.graph F.Of.stack) node (past self.old.told);
        } }
    {
        let state = &mut self.nodes[node as usize - 1];
        give_up_ring(&mut state.window, &mut self.transit);
        state.settled = true;
        self.log.push(Entry::Settle { role, node });
    }

    /// A node that keeps nothing for a window to come is settled. What waits there stays.
    pub fn note_settle(&mut self, role: u32, node: u32)
        requires still { self.old.transit ≡ [] }
        requires node { is_node (run_setting F.Of.graph F.Of.stack) node ≡ true }
        requires kind { watches (run_setting F.Of.graph F.Of.stack) node ≡ false }
        requires legal { is_legal (run_setting F.Of.graph F.Of.stack) (Settle role node ∷ past self.old.told) ≡ true }
        ensures { self.new ≡ record self.old { told = plain (Settle role node) ∷ self.old.told } }
    {
        self.nodes[node as usize - 1].settled = true;
        self.log.push(Entry::Settle { role, node });
    }
}
