//! Arrays that come to be on their way: those of a job, and those that come out of a ring.

ghost use Rattle.std.specs.Prelude.{◌≡◌, ◌<◌, ◌≤◌, ◌-◌, ◌∷◌, [], length, Some, ◌+◌, ◌++◌, if◌then◌else◌, List, Bool};
ghost use Rattle.std.specs.VecDeque.{deque_capacity};
ghost use Rattle.nd_base.specs.declared.frame.FrameName.{FrameName};
ghost use Rattle.trig_window.specs.Watching.{StandsAt};
ghost use Rattle.course_parts.specs.Windows.{IsWatched};

use nd_base::FrameName;
use std::collections::VecDeque;
use trig_window::{Passed, Window};

/// What became of an array that was put at a circular node.
#[derive(Clone, Copy, Debug, PartialEq, Eq)]
pub enum Watched {
    /// It is kept in the ring.
    Kept,
    /// An array that no window can have is let go: it, or the oldest of the ring, in which it is kept then.
    LetGo,
    /// It goes out, at a trigger behind the ring.
    Out,
}

/// Both arrays of a job are on their way, or its result alone.
pub fn carry(transit: &mut VecDeque<FrameName>, first: FrameName, input: FrameName, both: bool)
    requires still { transit.old.items ≡ [] }
    requires room { 2 ≤ deque_capacity transit.old }
    ensures items { transit.new.items ≡ first ∷ (if both then input ∷ [] else []) }
    ensures room { deque_capacity transit.new ≡ deque_capacity transit.old }
{
    let Ok(()) = transit.push_back(first) else {
        unreachable!()
    };
    if both {
        let Ok(()) = transit.push_back(input) else {
            unreachable!()
        };
    }
}

/// The array of a job is on its way, where its result was made of it.
pub fn carry_input(transit: &mut VecDeque<FrameName>, input: FrameName, made: bool)
    requires still { transit.old.items ≡ [] }
    requires room { 1 ≤ deque_capacity transit.old }
    ensures items { transit.new.items ≡ (if made then input ∷ [] else []) }
    ensures room { deque_capacity transit.new ≡ deque_capacity transit.old }
{
    if made {
        let Ok(()) = transit.push_back(input) else {
            unreachable!()
        };
    }
}

/// What is kept for a window to come is on its way, the oldest first.
pub fn give_up_ring(window: &mut Window<FrameName>, transit: &mut VecDeque<FrameName>)
    requires pending { window.old.pending ≡ [] }
    requires still { transit.old.items ≡ [] }
    requires room { length window.old.ring ≤ deque_capacity transit.old }
    ensures ring { window.new.ring ≡ [] }
    ensures pending { window.new.pending ≡ [] }
    ensures items { transit.new.items ≡ window.old.ring }
    ensures capacity { deque_capacity transit.new ≡ deque_capacity transit.old }
{
    while let Some(name) = window.clear_next() {
        transit.push_back_reserved(name);
    }
}

/// What is pending in a window is on its way.
fn drain(window: &mut Window<FrameName>, transit: &mut VecDeque<FrameName>)
    requires { length transit.old.items + length window.old.pending ≤ deque_capacity transit.old }
    ensures window { window.new ≡ record window.old { pending = [] } }
    ensures items { transit.new.items ≡ transit.old.items ++ window.old.pending }
    ensures room { deque_capacity transit.new ≡ deque_capacity transit.old }
{
    while let Some(name) = window.ring_next() {
        transit.push_back_reserved(name);
    }
}

/// Puts an array into a window. What the window doesn't keep is on its way then.
pub fn watch(
    window: &mut Window<FrameName>,
    transit: &mut VecDeque<FrameName>,
    name: FrameName,
    fired: bool,
) -> Watched
    requires stands { (flags : List Bool) × (names : List FrameName) × StandsAt window.old flags names }
    requires still { transit.old.items ≡ [] }
    requires room { length window.old.ring < deque_capacity transit.old }
    ensures watched { (flags : List Bool) (names : List FrameName) → StandsAt window.old flags names
        → IsWatched flags names fired name window.old window.new transit.new.items result }
    ensures room { deque_capacity transit.new ≡ deque_capacity transit.old }
{
    match window.push(name, fired) {
        Passed::Kept => Watched::Kept,
        Passed::KeptFor(oldest) => {
            transit.push_back_reserved(oldest);
            Watched::LetGo
        }
        Passed::LetGo(unwanted) => {
            transit.push_back_reserved(unwanted);
            Watched::LetGo
        }
        Passed::Now(newest) => {
            drain(window, transit);
            transit.push_back_reserved(newest);
            Watched::Out
        }
    }
}
