//! The top call that runs a graph with its threads, beside the one for the commands that wait for nobody (`tool_top`) and the one that checks
//! the log and the files of a run (`check_top`).
#![tactic(auto)]

mod demo;
mod exit;
mod histories;
mod laws;
mod run;
mod run_rows;
mod run_sources;
mod run_words;

pub use check_command::{
    CheckFault, CheckStatus, Difference, LogFault, check_status_text, check_top, checks_are_exact,
};
pub use exit::Exit;
pub use laws::{
    checks_accept_runs, files_have_own_names, runs_are_refused_as_plain,
    smooth_runs_are_plain_files,
};
pub use run::run_top;
pub use tool_commands::{LimitFault, Status, status_text, tool_top};
