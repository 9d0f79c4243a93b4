//! One move of a log: what its entries come to.

ghost use Rattle.std.specs.Prelude.{◌≡◌, ◌≢◌, ◌<◌, [], true, false, length, IfOk, OnOk};
ghost use Rattle.nd_base.specs.GraphRules.{IsGraph};
ghost use Rattle.flow_journal.specs.Setting.{Setting};
ghost use Rattle.flow_journal.specs.Pasts.{Past};
ghost use Rattle.flow_journal.specs.Histories.{is_history};
ghost use Rattle.board_rules.specs.States.{past};
ghost use Rattle.board_rules.specs.RunMeasures.{run_setting};
ghost use Rattle.journal_check.specs.Steps.{next_tick, AreAlike, IsBegun, IsStep};

use crate::frame::Name;
use crate::moves::try_move;
use crate::source::Source;
use flow_journal::Entry;
use nd_base::{OutOfMemory, Run};
use run_course::Course;

/// What one move of a log comes to.
#[derive(Clone, Copy, Debug, PartialEq, Eq)]
pub(crate) enum Step {
    /// So many entries are a legal move.
    Made(usize),
    /// The entry at this place, from 0, is the first that isn't in its place.
    Bad(usize),
    /// The log ends within the move.
    Ends,
}

/// The tick that these entries begin with, or 0.
fn next_tick(entries: &[Entry]) -> u64
    ensures { result ≡ next_tick entries.now }
{
    match entries.first() {
        Some(Entry::Tick { tick }) => *tick,
        _ => 0,
    }
}

/// Whether two entries are one.
fn is_same(made: Entry, told: Entry) -> bool
    ensures same { result ≡ true → made ≡ told }
    ensures differ { result ≡ false → made ≢ told }
{
    made == told
}

/// How many entries are alike in both, from the first on.
fn count_alike(made: &[Entry], entries: &[Entry]) -> usize
    ensures { AreAlike made.now entries.now result }
{
    let most = made.len().min(entries.len());
    let mut count = 0;
    while count < most && is_same(made[count], entries[count]) {
        count += 1;
    }
    count
}

/// What entries come to that begin with the first one of this move.
fn compared(made: &[Entry], entries: &[Entry]) -> Step
    ensures { (s : Setting) (P Q : Past) → IsBegun s P made.now entries.now Q → IsStep s P entries.now result Q }
{
    let count = count_alike(made, entries);
    if count == made.len() {
        Step::Made(count)
    } else if count == entries.len() {
        Step::Ends
    } else {
        Step::Bad(count)
    }
}

/// Makes the move that the entries begin with, and tells what they come to.
///
/// # Errors
///
/// Only for want of memory.
pub(crate) fn next_step<R: Run>(
    source: &Source,
    course: &mut Course<Name<R>>,
    entries: &[Entry],
) -> Result<Step, OutOfMemory>
    requires still { course.old.transit ≡ [] }
    requires history { is_history (run_setting R.graph R.stack) (past course.old.told) ≡ true }
    requires graph { source.now.plan.now.graph ≡ R.graph }
    requires sound { IsGraph R.graph }
    requires stack { source.now.stack.now ≡ R.stack }
    requires some { 0 < length entries.now }
    ensures still { OnOk result (course.new.transit ≡ []) }
    ensures step { IfOk result (λ s. IsStep (run_setting R.graph R.stack) (past course.old.told) entries.now s (past course.new.told)) }
{
    let before = course.entries().len();
    let tick = next_tick(&entries[1..]);
    if !try_move(source, course, entries[0], tick)? {
        return Ok(Step::Bad(0));
    }
    Ok(compared(&course.entries()[before..], entries))
}
