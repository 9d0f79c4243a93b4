//! Regions of arrays: cut out, bin, reverse, scale and convert.
#![tactic(auto)]

mod cut;
mod fill;
mod sample;
#[cfg(test)]
mod tests;
mod walk;

pub use cut::region;
pub use fill::fill_region;
