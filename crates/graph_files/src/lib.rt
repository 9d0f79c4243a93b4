//! The files of a graph, as a run writes them: their names, and the files of a file node, of which at most one is open.
#![tactic(auto)]

mod node_files;
mod open_files;
mod shapes;

pub use node_files::{NodeFiles, first_count, is_stream};
pub use open_files::OpenFiles;
pub use shapes::file_shape;
