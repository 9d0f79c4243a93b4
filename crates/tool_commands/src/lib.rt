//! The commands that wait for nobody: each reads its files, works on them in one thread, writes, prints, and answers how it ended.
#![tactic(auto)]

mod copy;
mod correct;
mod generate;
mod info;
mod laws;
mod orient;
mod plain;
mod printing;
mod prints;
mod reading;
mod series;
mod sources;
mod stack_files;
mod status;
mod top;
mod words;

pub use graph_conf::LimitFault;
pub use laws::{copies_are_one_file, plain_runs_go_by_inputs, works_are_of_what_was_read};
pub use printing::{finish_all, print, save_text};
pub use reading::{ReadRefusal, read_file};
pub use sources::load_sources;
pub use status::{Status, status_of, status_text};
pub use top::tool_top;
