//! The roles of a run, and the desk at which they make their calls.
//!
//! A desk is a board that roles share: each call of theirs is one call of the board, at one place of the one log. A role
//! knows of the board what its pass knows: a front of the log, and the moves that it made itself.
#![tactic(auto)]

mod desk;
mod feeding;
mod job;
mod last;
mod left_desk;
mod measuring;
mod nodes;
mod operation;
mod played;
mod plays;
mod role_end;
mod turn_desk;
mod without_thread;
mod working;

pub use desk::Desk;
pub use feeding::{feed_role, frame_on, loads_are_ticks};
pub use job::result_of;
pub use last::{Last, Said};
pub use left_desk::{LeftDesk, LeftPass, Stage};
pub use measuring::{Alone, Measuring};
pub use nodes::worker_nodes;
pub use operation::{DeskOp, DeskReply};
pub use played::Played;
pub use plays::{operations_are_moves, play};
pub use role_end::{RoleEnd, nothing};
pub use turn_desk::{TurnPass, share_board, take_back};
pub use without_thread::{leave_feed, leave_work};
pub use working::work_role;
