//! Who has a hand taken back, where a log is read from its end.

ghost use Rattle.std.specs.Prelude.{◌≡◌, ℕ, false, not, IfOk, OnOk};
ghost use Rattle.run_report.specs.Backwards.{has_role, is_taken_back, before};

use flow_journal::Entry;
use nd_base::OutOfMemory;
use std::alloc::Global;
use std::collections::BTreeSet;

/// The roles whose hand a later entry takes back.
#[derive(Drop)]
pub(crate) struct Reclaims {
    roles: BTreeSet<u32>,
}

impl Reclaims {
    /// After the last entry no hand is taken back.
    pub(crate) fn new(alloc: Global) -> Reclaims
        ensures { (q : ℕ) → has_role result q ≡ false }
    {
        Reclaims {
            roles: BTreeSet::new(alloc),
        }
    }

    /// Reads the entry before those that were read, and says whether it stands.
    pub(crate) fn stands(&mut self, entry: &Entry) -> Result<bool, OutOfMemory>
        ensures stands { IfOk result (λ b. b ≡ not (is_taken_back (has_role self.old) entry.now)) }
        ensures roles { OnOk result ((q : ℕ) → has_role self.new q ≡ before entry.now (has_role self.old) q) }
    {
        match *entry {
            Entry::Load { role, .. }
            | Entry::Take { role, .. }
            | Entry::TakeBlock { role, .. }
            | Entry::Save { role, .. } => Ok(!self.roles.remove(&role)),
            Entry::Issue { role, .. } | Entry::Put { role, .. } | Entry::Saved { role, .. } => {
                self.roles.remove(&role);
                Ok(true)
            }
            Entry::Reclaim { role } => {
                self.roles.insert(role)?;
                Ok(true)
            }
            _ => Ok(true),
        }
    }
}
