//! The triggers of a circular node: expressions over two attributes, and the windows of arrays that are passed on.
#![tactic(auto)]

mod expression;
mod firing;
mod passing;
mod symbols;
mod trigger;
mod window;

pub use expression::{CalcFault, expression_or_fault, parse_calc};
pub use firing::fires;
pub use passing::passed_positions;
pub use trigger::trigger_fires;
pub use window::{Passed, Window};
