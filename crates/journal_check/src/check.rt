//! The check of a whole log.

ghost use Rattle.std.specs.Prelude.{◌≡◌, ◌≢◌, reverse, Err};
ghost use Rattle.nd_base.specs.GraphRules.{IsGraph};
ghost use Rattle.nd_base.specs.Stacks.{IsStack};
ghost use Rattle.chain_plain.specs.Plans.{plan_of};
ghost use Rattle.board_rules.specs.RunMeasures.{run_setting};
ghost use Rattle.journal_check.specs.declared.fault.CheckFault.TheVariants as faults;
ghost use Rattle.journal_check.specs.Verdicts.{Checks};

use crate::fault::CheckFault;
use crate::frame::Name;
use crate::source::Source;
use crate::step::{Step, next_step};
use flow_journal::Log;
use nd_base::{Plan, Run, Stack};
use run_course::Course;
use std::alloc::Global;
use std::marker::Brand;

/// Whether the log is a legal and finished history of this run.
fn check_run<R: Run>(source: &Source, log: &Log) -> Result<(), CheckFault>
    requires plan { source.now.plan.now ≡ plan_of R.graph R.stack }
    requires graph { IsGraph R.graph }
    requires sound { IsStack R.stack }
    requires stack { source.now.stack.now ≡ R.stack }
    ensures { result ≢ Err faults.OutOfMemory → Checks (run_setting R.graph R.stack) (reverse log.now.past) result }
{
    let mut course = Course::<Name<R>>::new(source.alloc, source.plan)?;
    let entries = log.entries();
    let mut at = 0;
    while at < entries.len() {
        match next_step(source, &mut course, &entries[at..])? {
            Step::Made(count) => at += count,
            Step::Bad(place) => {
                return Err(CheckFault::Entry {
                    n: (at + place + 1) as u32,
                });
            }
            Step::Ends => return Err(CheckFault::Unfinished),
        }
    }
    if course.finished() {
        Ok(())
    } else {
        Err(CheckFault::Unfinished)
    }
}

/// Whether the log is that of a finished run of the plan over the stack: a legal history that is finished. But for want of memory the answer
/// is exact.
///
/// # Errors
///
/// `Entry` for the first entry that no legal history has there; `Unfinished` where there is none, and the log isn't finished; and
/// `OutOfMemory`.
pub fn check_log(alloc: Global, plan: &Plan, stack: &Stack, log: &Log) -> Result<(), CheckFault>
    requires graph { IsGraph plan.now.graph }
    requires sound { IsStack stack.now }
    requires plan { plan.now ≡ plan_of plan.now.graph stack.now }
    ensures { result ≢ Err faults.OutOfMemory → Checks (run_setting plan.now.graph stack.now) (reverse log.now.past) result }
{
    check_run::<Brand>(&Source { alloc, plan, stack }, log)
}
