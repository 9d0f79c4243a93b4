//! The command `check GRAPH STACK LOG PREFIX`: whether a log is that of a finished run of the graph over the stack, and whether the files that
//! begin with the prefix are those of the run.
#![tactic(auto)]

mod laws;
mod reading;
mod status;
mod top;
mod words;

pub use data_check::Difference;
pub use flow_journal::LogFault;
pub use journal_check::CheckFault;
pub use laws::checks_are_exact;
pub use status::{CheckStatus, check_status_text};
pub use top::check_top;
