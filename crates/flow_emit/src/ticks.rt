//! The tick of a load, and the looks at sort lists that it brings.

ghost use Rattle.std.specs.Prelude.{◌≡◌, ◌∷◌, [], true};
ghost use Rattle.flow_journal.specs.declared.entry.Entry.TheVariants.{Tick};
ghost use Rattle.flow_journal.specs.Setting.{is_sorted};
ghost use Rattle.flow_journal.specs.Ended.{now};
ghost use Rattle.flow_journal.specs.Histories.{is_legal};
ghost use Rattle.board_rules.specs.States.{past};
ghost use Rattle.board_rules.specs.Moving.{with_all};
ghost use Rattle.board_rules.specs.RunMeasures.{run_setting};
ghost use Rattle.flow_emit.specs.Ticks.{all_looked};

use crate::looks::look;
use nd_base::Held;
use run_course::Course;

/// Looks at each sort list, in the order of the nodes.
fn look_at_all<F: Held>(course: &mut Course<F>)
    requires still { course.old.transit ≡ [] }
    requires legal { is_legal (run_setting F.Of.graph F.Of.stack) (past (all_looked (run_setting F.Of.graph F.Of.stack) course.old.told)) ≡ true }
    ensures { course.new ≡ record course.old { told = all_looked (run_setting F.Of.graph F.Of.stack) course.old.told } }
{
    for place in 0..course.node_count() {
        if course.is_sorted(place + 1) {
            look(course, place + 1);
        }
    }
}

/// The tick of a load, of which the greater of it and the one before is kept. Then each sort list is looked at.
pub(crate) fn tick<F: Held>(course: &mut Course<F>, tick: u64)
    requires still { course.old.transit ≡ [] }
    requires legal { is_legal (run_setting F.Of.graph F.Of.stack)
        (past (with_all (run_setting F.Of.graph F.Of.stack) tick 3 (Tick (now (past course.old.told)) ∷ []) course.old.told)) ≡ true }
    ensures { course.new ≡ record course.old {
      told = with_all (run_setting F.Of.graph F.Of.stack) tick 3
          (Tick (now (past course.old.told)) ∷ []) course.old.told;
    } }
{
    course.note_tick(tick);
    look_at_all(course);
}
