//! What holds of every legal history once something has ended. The function is a law: it does nothing, and its contract
//! says what holds.

ghost use Rattle.flow_drain.specs.EndLaws.{EndLaws};

/// What has ended stays so: a closed feed has offered all, and a settled node is empty. Only roles of the run have a hand.
/// So where the feed is closed and all nodes are settled, nothing is left but pieces to save.
pub fn ended_nodes_are_empty()
    ensures { EndLaws }
{}
