//! What is counted of the driver's loads and of all grants, where a log is read from its end.

ghost use Rattle.std.specs.Prelude.{◌≡◌};
ghost use Rattle.run_report.specs.Tallies.{HasRoomForLoads, more_loads};

use flow_journal::Entry;

#[derive(Clone, Copy)]
pub(crate) struct FeedTally {
    pub loaded: u64,
    pub refused: u64,
    pub regrown: u64,
}

impl FeedTally {
    /// Counts an entry, which stands or was taken back.
    pub(crate) fn count(&mut self, entry: &Entry, stands: bool)
        requires { HasRoomForLoads self.old }
        ensures { self.new ≡ more_loads stands entry.now self.old }
    {
        match *entry {
            Entry::Load { regrown, .. } => {
                self.loaded += u64::from(stands);
                self.regrown += u64::from(regrown);
            }
            Entry::LoadRefused { .. } => self.refused += 1,
            Entry::TakeBlock { regrown, .. } => self.regrown += u64::from(regrown),
            _ => (),
        }
    }
}
