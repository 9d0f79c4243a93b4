//! What goes out of the sort list of a node.

ghost use Rattle.std.specs.Prelude.{◌≡◌, ◌<◌, [], Some, None, true};
ghost use Rattle.nd_base.specs.declared.frame.FrameName.{FrameName};
ghost use Rattle.flow_journal.specs.declared.entry.Why.{Why};
ghost use Rattle.flow_journal.specs.Setting.{is_node, is_sorted};
ghost use Rattle.flow_journal.specs.Histories.{is_legal};
ghost use Rattle.flow_journal.specs.Following.{look};
ghost use Rattle.board_rules.specs.States.{past};
ghost use Rattle.board_rules.specs.Moving.{with_all};
ghost use Rattle.board_rules.specs.RunMeasures.{run_setting};
ghost use Rattle.run_course.specs.Leaving.{flush, LeavesList};

use crate::Course;
use course_parts::{let_out, take_least};
use flow_journal::{Entry, Why};
use nd_base::{FrameName, Held};

impl<F: Held> Course<F> {
    /// Logs that the least waiting one goes out of the sort list of a node, where it keeps step or is late. It is on its way then.
    pub fn leave_due(&mut self, node: u32) -> Option<FrameName>
        requires node { is_node (run_setting F.Of.graph F.Of.stack) node ≡ true }
        requires sorted { is_sorted (run_setting F.Of.graph F.Of.stack) node ≡ true }
        requires still { self.old.transit ≡ [] }
        requires legal { is_legal (run_setting F.Of.graph F.Of.stack)
            (past (with_all (run_setting F.Of.graph F.Of.stack) 0 2 (look (run_setting F.Of.graph F.Of.stack) node (past self.old.told)) self.old.told))
            ≡ true }
        ensures none { result ≡ None → (look (run_setting F.Of.graph F.Of.stack) node (past self.old.told) ≡ []) × (self.new ≡ self.old) }
        ensures some { (name : FrameName) → result ≡ Some name
            → LeavesList (run_setting F.Of.graph F.Of.stack) node (look (run_setting F.Of.graph F.Of.stack) node) name self.old self.new }
    {
        let place = node as usize - 1;
        let sort_time = u64::from(self.rules.nodes.as_slice()[place].sort_time);
        let now = self.facts.tick;
        let Some((name, why)) = let_out(&mut self.nodes[place], now, sort_time) else {
            return None;
        };
        self.transit.push_back_reserved(name);
        self.log.push(Entry::Emit {
            node,
            maker: name.maker,
            index: name.index,
            why,
        });
        Some(name)
    }

    /// Logs that the least waiting one goes out of the sort list of a settled node. It is on its way then.
    pub fn leave_least(&mut self, node: u32) -> Option<FrameName>
        requires node { is_node (run_setting F.Of.graph F.Of.stack) node ≡ true }
        requires sorted { is_sorted (run_setting F.Of.graph F.Of.stack) node ≡ true }
        requires still { self.old.transit ≡ [] }
        requires legal { is_legal (run_setting F.Of.graph F.Of.stack)
            (past (with_all (run_setting F.Of.graph F.Of.stack) 0 2 (flush (run_setting F.Of.graph F.Of.stack) node (past self.old.told)) self.old.told))
            ≡ true }
        ensures none { result ≡ None → (flush (run_setting F.Of.graph F.Of.stack) node (past self.old.told) ≡ []) × (self.new ≡ self.old) }
        ensures some { (name : FrameName) → result ≡ Some name
            → LeavesList (run_setting F.Of.graph F.Of.stack) node (flush (run_setting F.Of.graph F.Of.stack) node) name self.old self.new }
    {
        let Some(name) = take_least(&mut self.nodes[node as usize - 1]) else {
            return None;
        };
        self.transit.push_back_reserved(name);
        self.log.push(Entry::Emit {
            node,
            maker: name.maker,
            index: name.index,
            why: Why::Flush,
        });
        Some(name)
    }
}
