//! The course of a run, without the storage of its frames: the log, and what follows from it for each node, role and block.
//!
//! Contracts see a `Course` as the list `BoardState` of its log, with the arrays that are just on their way from one place to
//! another. Each call asks something, or adds one entry (at a sorted node two); `flow_emit` makes whole moves of these.
#![tactic(auto)]

mod course;

pub use course::Course;
pub use course_parts::{Block, Hand, MeasureRoom, NodeWork, Placement, Watched};
