//! The account of a pool of blocks: which block a request is granted, which blocks are given up for it, and how many
//! holds each block has. The pool has no storage of its own.
#![tactic(auto)]

pub use grants::{Grant, Refused};
pub use pools::Pool;

mod grants;
mod key_range;
mod key_set;
mod key_tree;
mod pools;
