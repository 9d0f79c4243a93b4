//! The course of a run of which nothing is logged yet.

ghost use Rattle.std.specs.Prelude.{◌≡◌, ◌≤◌, ◌+◌, ◌*◌, [], replicate, IfOk};
ghost use Rattle.nd_base.specs.GraphRules.{IsGraph};
ghost use Rattle.nd_base.specs.Stacks.{IsStack};
ghost use Rattle.chain_plain.specs.Plans.{plan_of};

use crate::Course;
use course_parts::{Facts, Rules, start_nodes, start_roles};
use nd_base::{Held, OutOfMemory, Plan};
use pool_ledger::Pool;
use std::alloc::Global;
use std::collections::VecDeque;
use told_log::ToldLog;

/// How many arrays may be on their way at once: those of a ring, and one more.
const MOST_MOVING: usize = 4097;

/// Room for the block of each frame, where so many makers have so many frames each.
fn start_blocks(alloc: Global, makers: u32, frames: u32) -> Result<Vec<u32>, OutOfMemory>
    requires makers { makers ≤ 33 }
    requires frames { frames ≤ 65536 }
    ensures { IfOk result (λ blocks. blocks.items ≡ replicate (makers * frames) 0) }
{
    Ok(vec![in alloc; 0u32; (makers * frames) as usize]?)
}

impl<F: Held> Course<F> {
    /// The course of the run of this plan. No later call takes memory but for a fresh block.
    ///
    /// # Errors
    ///
    /// Only for want of memory.
    pub fn new(alloc: Global, plan: &Plan) -> Result<Course<F>, OutOfMemory>
        requires plan { plan.now ≡ plan_of F.Of.graph F.Of.stack }
        requires graph { IsGraph F.Of.graph }
        requires stack { IsStack F.Of.stack }
        ensures { IfOk result (λ c. c ≡ record { told = []; transit = [] }) }
    {
        let rules = Rules::of::<F::Of>(alloc, plan)?;
        let nodes = start_nodes::<F::Of>(alloc, &rules)?;
        let last = rules.last_role();
        let makers = rules.nodes.as_slice().len() as u32 + 1;
        let frames = rules.ids.as_slice().len() as u32;
        let log = ToldLog::new(alloc, rules.most_entries(), last)?;
        let roles = start_roles(alloc, last + 1)?;
        let pool = Pool::new(alloc, rules.limit)?;
        let blocks = start_blocks(alloc, makers, frames)?;
        let transit = VecDeque::with_capacity(alloc, MOST_MOVING)?;
        Ok(Course {
            rules,
            log,
            nodes,
            roles,
            pool,
            blocks,
            facts: Facts::none(),
            transit,
        })
    }
}
