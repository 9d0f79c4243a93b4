//! What the pool answers.

ghost use Rattle.std.specs.Prelude.{◌≡◌, ◌⊎◌, [], true};
ghost use Rattle.flow_journal.specs.Setting.{is_maker};
ghost use Rattle.flow_journal.specs.FirstEntries.{pool_grants, pool_refuses};
ghost use Rattle.board_rules.specs.States.{past};
ghost use Rattle.board_rules.specs.RunMeasures.{run_setting};

use crate::frame::Name;
use nd_base::Run;
use pool_ledger::{Grant, Refused};
use run_course::Course;

/// Whether the pool grants this to the driver, which is 0, or to a node that makes arrays.
pub(crate) fn grants<R: Run>(
    course: &Course<Name<R>>,
    node: u32,
    grant: Grant,
    regrown: bool,
) -> bool
    requires still { course.now.transit ≡ [] }
    requires maker { (node ≡ 0) ⊎ (is_maker (run_setting R.graph R.stack) node ≡ true) }
    ensures { result ≡ pool_grants (run_setting R.graph R.stack) node grant.block grant.size grant.fresh grant.given_up regrown (past course.now.told) }
{
    course.peek(node) == Ok(grant) && !(regrown && grant.fresh)
}

/// Whether the pool refuses the driver, which is 0, or a node that makes arrays, this need while so many bytes are held.
pub(crate) fn refuses<R: Run>(course: &Course<Name<R>>, node: u32, need: u32, held: u64) -> bool
    requires still { course.now.transit ≡ [] }
    requires maker { (node ≡ 0) ⊎ (is_maker (run_setting R.graph R.stack) node ≡ true) }
    ensures { result ≡ pool_refuses (run_setting R.graph R.stack) node need held (past course.now.told) }
{
    course.peek(node) == Err(Refused { held }) && need == course.need(node)
}
