//! The text of a plugin graph, in TOML: the graph that it means, or its first fault.
#![tactic(auto)]

mod fault;
mod keys;
mod kind;
mod links;
mod load;
mod node;
mod read;
mod rules;
mod words;

pub use fault::GraphFault;
pub use load::{LimitFault, check_load};
pub use read::read_graph;
pub use words::sample_type_named;
