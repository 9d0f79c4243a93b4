//! What a circular node passes on of a whole list.
ghost use Rattle.std.specs.Prelude.{◌≡◌, ◌≤◌, List, [], ◌∷◌, ◌++◌, Bool, length, IfOk, OnOk};
ghost use Rattle.trig_window.specs.Windows.{goes_out, passed_items};
ghost use Rattle.trig_window.specs.Watching.{SameRule, StandsAt};

use crate::window::{Passed, Window};
use nd_base::OutOfMemory;
use std::alloc::Global;

/// Those of the positions that pass, where each position fires or doesn't. Each is pushed, and what is pending goes out
/// before the one that was passed on.
///
/// # Errors
///
/// Only for want of memory.
pub fn passed_positions(
    alloc: Global,
    pre: u32,
    post: u32,
    preset: u32,
    fired: &[bool],
    positions: &[u32],
) -> Result<Vec<u32>, OutOfMemory>
    requires positive { 1 ≤ post }
    requires flags { length fired.now ≡ length positions.now }
    ensures { IfOk result (λ v. v.items ≡ passed_items pre post preset fired.now positions.now) }
{
    let mut window = Window::new(alloc, pre, post, preset)?;
    let mut passed = Vec::new(alloc);
    for (place, fires) in fired.iter().enumerate() {
        push_into(&mut window, positions[place], *fires, &mut passed)?;
    }
    Ok(passed)
}

/// Pushes an item and adds what goes out at it to a list: what is pending, and then the item where it is passed on.
fn push_into<T: Drop>(
    window: &mut Window<T>,
    item: T,
    fired: bool,
    out: &mut Vec<T>,
) -> Result<(), OutOfMemory>
    requires { window.old.pending ≡ [] }
    ensures rule { OnOk result (SameRule window.old window.new) }
    ensures stands { OnOk result ((flags : List Bool) (xs : List T) → StandsAt window.old flags xs
        → StandsAt window.new (flags ++ fired ∷ []) (xs ++ item ∷ [])) }
    ensures out { OnOk result ((flags : List Bool) (xs : List T) → StandsAt window.old flags xs
        → out.new.items ≡ out.old.items ++ goes_out window.old.pre window.old.post window.old.preset flags xs fired item) }
{
    match window.push(item, fired) {
        Passed::Now(item) => {
            drain_ring(window, out)?;
            out.push(item)?;
            Ok(())
        }
        Passed::Kept => Ok(()),
        Passed::KeptFor(_) => Ok(()),
        Passed::LetGo(_) => Ok(()),
    }
}

/// Moves what is pending to the end of a list.
fn drain_ring<T: Drop>(window: &mut Window<T>, out: &mut Vec<T>) -> Result<(), OutOfMemory>
    ensures window { OnOk result (window.new ≡ record window.old { pending = [] }) }
    ensures out { OnOk result (out.new.items ≡ out.old.items ++ window.old.pending) }
{
    while let Some(item) = window.ring_next() {
        out.push(item)?;
    }
    Ok(())
}
