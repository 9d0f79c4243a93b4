//! The inbox of a node, and the list that puts results back in the order of their ids.
#![tactic(auto)]

mod inboxes;
mod sort_lists;

pub use inboxes::{Full, Inbox, queues_every_run};
pub use sort_lists::{Due, Placed, SortFull, SortList, Waiting, sorts_every_run};
