//! Arrays in eight orientations, and their correction by a dark array.
#![tactic(auto)]

mod arrays;
mod cells;
mod correction;
mod dims;
mod laws;
mod modes;
mod reverse;
mod rule;
mod samples;
mod scale;
mod turn;

pub use arrays::{OrientFault, correct, orient};
pub use correction::{Samples, correct_samples};
pub use dims::orient_dims;
pub use laws::orientations_compose;
pub use modes::{compose, inverse};
pub use rule::CorrectRule;
pub use samples::orient_samples;
