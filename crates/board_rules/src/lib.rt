//! What each call of a board answers and logs, over every graph.
//!
//! Contracts see a board as the list `BoardState`: its log, the newest entry first, and beside an entry what was handed over there.
#![tactic(auto)]

mod answers;
mod board;
mod laws;
mod measures;
mod told;

pub use answers::{Done, HandName, Left, Load, NoReclaim, NoWhy, NotYours, Save, Settled, Take};
pub use board::BoardCalls;
pub use laws::{
    calls_add_moves, calls_have_answers, calls_keep_histories, calls_keep_storage,
    own_entries_tell_hands,
};
pub use measures::Measures;
pub use told::{LentParts, Told};
