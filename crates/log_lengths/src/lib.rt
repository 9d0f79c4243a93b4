//! How long the text of a log can be: a law over histories alone.
#![tactic(auto)]

mod laws;

pub use laws::log_texts_are_short;
