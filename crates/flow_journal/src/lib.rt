//! The log of a run, entry by entry, with its text; and in `specs/` what a legal log is.
//!
//! Contracts see a `Log` as the record `Journal`: its entries, the newest first, and how many it has room for.
//! `specs/Histories.antt` says which entries make a legal history, and `docs/history.md` tells the same in words.
#![tactic(auto)]

mod entry;
mod kind;
mod laws;
mod log;
mod progress;
mod read;
mod spelling;
#[cfg(test)]
mod tests;
mod write;

pub use entry::{Entry, Why};
pub use laws::{
    arrays_come_once, entries_change_facts, entries_move_blocks, grants_are_unplaced,
    hands_are_few, histories_are_moves, least_goes_first, logs_are_short, moves_are_cut_by_kind,
    moves_begin_by_rows, nodes_emit_their_results, pieces_come_in_groups, pools_keep_their_limit,
    queues_are_in_order, queues_count, rings_are_windows, texts_tell_entries,
};
pub use log::Log;
pub use progress::{KeptNotes, Progress, Quiet, Watch};
pub use read::{LogFault, read_text};
pub use write::write_text;
