//! Whose turn it is at a node that gives each array to one child: the first child from the turn on, round the children,
//! whose queue has room.
#![tactic(auto)]

ghost use Rattle.std.specs.Prelude.{◌≡◌, ◌<◌, ◌≤◌, ◌-◌, find, length};
ghost use Rattle.std.specs.List.{range_with_len};
ghost use Rattle.scatter_rule.specs.Rounds.{has_room, in_turn, choice};

#[cfg(test)]
mod tests;

/// To which child an array goes.
#[derive(Clone, Copy, Debug, PartialEq, Eq)]
pub enum Choice {
    /// To the one at this place.
    Give(usize),
    /// To none: the queue of each is full.
    AllFull,
}

/// The choice at a node with these children: how many arrays are queued at each, and how many its queue takes, in the graph's
/// order. `turn` is the place of the child whose turn it is.
pub fn next_child(turn: u32, queued: &[u32], sizes: &[u32]) -> Choice
    requires lengths { length sizes.now ≡ length queued.now }
    requires turn { turn < length queued.now }
    ensures { result ≡ choice (find (has_room queued.now sizes.now) (in_turn turn (length queued.now))) }
{
    let turn = turn as usize;
    if let Some(place) = first_with_room(queued, sizes, turn, queued.len()) {
        return Choice::Give(place);
    }
    match first_with_room(queued, sizes, 0, turn) {
        Some(place) => Choice::Give(place),
        None => Choice::AllFull,
    }
}

/// The first of these places whose queue has room.
fn first_with_room(queued: &[u32], sizes: &[u32], from: usize, to: usize) -> Option<usize>
    requires lengths { length sizes.now ≡ length queued.now }
    requires places { (from ≤ to) × (to ≤ length queued.now) }
    ensures { result ≡ find (has_room queued.now sizes.now) (range_with_len from (to - from)) }
{
    for place in from..to {
        if queued[place] < sizes[place] {
            return Some(place);
        }
    }
    None
}
