//! Stacks of frames out of netCDF classic files: which variable has the frames, what type their samples
//! have, and what each frame has beside them; and stacks that are made by a rule.
#![tactic(auto)]

mod arrays;
mod attributes;
mod column;
mod fault;
mod frames;
mod generated;
mod heads;
mod integers;
mod read;
mod round_trip;
mod shape;

pub use arrays::{array, shape_for};
pub use fault::StackFault;
pub use generated::{GenFault, gen_fault, gen_stack, generated_frames_go_on};
pub use read::{frames_stand_where_their_values_do, headers_are_those_of_the_grammar, read_stack};
pub use round_trip::{
    generated_stacks_read_back, layout_reads_back, open_files_read_back, stack_shape_is_writable,
    stacks_read_back,
};
