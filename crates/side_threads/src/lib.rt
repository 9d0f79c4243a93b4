//! Work in threads beside this one. Where the system makes no thread for a piece of work, that piece is done here before the others go on,
//! and is told so: it can do less then, and nobody waits for it.
#![tactic(auto)]

mod both;
mod each;
#[cfg(test)]
mod tests;

pub use both::work_beside;
pub use each::each_beside;
