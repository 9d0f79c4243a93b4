//! What a finished history says: laws over histories and plain results alone.
#![tactic(auto)]

mod laws;

pub use laws::{
    arrays_are_accepted_or_dropped, breaks_are_marked, drops_have_causes, finished_runs_hold,
    grants_are_unplaced, names_are_makers, outputs_are_permutations, outputs_keep_order,
    smooth_runs_are_plain, waiting_feeds_find_room,
};
