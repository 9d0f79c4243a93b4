//! The board of a run: a machine of one thread that says, call by call, what each role may do, and logs it.
//!
//! A `Board` is a `Course`, which keeps the log and what follows from it, and a `FrameTable`, which keeps the frames and the storage of their
//! blocks. It meets the contracts of `BoardCalls`, over every graph.
#![tactic(auto)]

mod board;
mod calls;
mod feeding;
mod leaving;
mod storage;
mod working;

pub use board::Board;
pub use board_rules::{
    BoardCalls, Done, HandName, Left, Load, Measures, NoReclaim, NoWhy, NotYours, Save, Settled,
    Take,
};
