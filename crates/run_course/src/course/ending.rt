//! How far a run has come, and what is left at its end.

ghost use Rattle.std.specs.Prelude.{◌≡◌, true};
ghost use Rattle.std.specs.List.{list_all};
ghost use Rattle.flow_journal.specs.Histories.{is_history};
ghost use Rattle.flow_journal.specs.Hands.{hands};
ghost use Rattle.flow_journal.specs.Finished.{none_left, is_done, is_finished};
ghost use Rattle.flow_journal.specs.Setting.{node_numbers};
ghost use Rattle.flow_journal.specs.Notes.{progress_of};
ghost use Rattle.board_rules.specs.States.{past};
ghost use Rattle.board_rules.specs.Ends.{measured};
ghost use Rattle.board_rules.specs.RunMeasures.{run_setting, run_measure};

use crate::Course;
use course_parts::{MeasureRoom, all_are_over, all_have_free_hands, all_measures};
use flow_journal::{Log, Progress};
use nd_base::{Held, Measure, Seq};

impl<F: Held> Course<F> {
    /// Whether no role has anything in hand.
    fn all_are_free(&self) -> bool
        ensures { result ≡ none_left (hands (past self.now.told)) }
    {
        all_have_free_hands(&self.roles)
    }

    /// Whether each node is settled, and nothing is left there.
    fn all_are_done(&self) -> bool
        requires { is_history (run_setting F.Of.graph F.Of.stack) (past self.now.told) ≡ true }
        ensures { result ≡ list_all (is_done (run_setting F.Of.graph F.Of.stack) (past self.now.told)) (node_numbers (run_setting F.Of.graph F.Of.stack)) }
    {
        all_are_over(&self.nodes)
    }

    /// Whether the feed and all nodes have ended, and nothing is left anywhere.
    pub fn finished(&self) -> bool
        requires { is_history (run_setting F.Of.graph F.Of.stack) (past self.now.told) ≡ true }
        ensures { result ≡ is_finished (run_setting F.Of.graph F.Of.stack) (past self.now.told) }
    {
        self.facts.closed
            && self.facts.offered as usize == self.rules.ids.as_slice().len()
            && self.all_are_free()
            && self.all_are_done()
    }

    /// How far the run has come.
    pub fn progress(&self) -> Progress
        requires { is_history (run_setting F.Of.graph F.Of.stack) (past self.now.told) ≡ true }
        ensures { result ≡ progress_of (run_setting F.Of.graph F.Of.stack) (past self.now.told) }
    {
        Progress {
            entries: self.log.len() as u32,
            offered: self.facts.came,
            dropped: self.facts.dropped,
            saved: self.facts.saved,
            left: self.facts.left,
            done: self.finished(),
        }
    }

    /// The log, and for each node its measures in the order of emission.
    pub fn into_parts(self, room: MeasureRoom) -> (Log, Vec<Seq<Measure>>)
        ensures log { result.0.past ≡ past self.told }
        ensures measures { result.1.items ≡ measured (run_measure F.Of.graph F.Of.stack) (run_setting F.Of.graph F.Of.stack) (past self.told) }
    {
        let Course {
            rules: _,
            log,
            nodes,
            roles: _,
            pool: _,
            blocks: _,
            facts: _,
            transit: _,
        } = self;
        (log.into_log(), all_measures(nodes, room))
    }
}
