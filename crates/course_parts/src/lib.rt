//! The parts of a course of a run: its rules, what is kept of each node and role, and the other facts of its log; and what changes in one
//! part alone.
//!
//! What each of them has to be is said by the log: `NodeStates`, `RoleStates`, `RunRules` and `Facts` of the specifications.
#![tactic(auto)]

mod ending;
mod facts;
mod groups;
mod hand;
mod lists;
mod moving;
mod node;
mod results;
mod rules;

pub use ending::{MeasureRoom, all_are_over, all_have_free_hands, all_measures};
pub use facts::Facts;
pub use groups::{is_whole_group, size_of_group};
pub use hand::{Block, Hand, RoleState, let_go, start_roles};
pub use lists::{let_out, take_least};
pub use moving::{Watched, carry, carry_input, give_up_ring, watch};
pub use node::{Kept, NodeState, start_nodes};
pub use results::{Placement, count_put, keep_measure, keep_unsaved, place};
pub use rules::{NodeRules, NodeWork, Rules};
