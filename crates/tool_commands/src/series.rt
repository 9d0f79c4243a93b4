//! `series LENGTH REGIONS STACK NAME`: writes the statistics of regions over the last frames of a stack.

ghost use Rattle.std.specs.Prelude.{◌≡◌, [], unwrap_or, Some, IsSome};
ghost use Rattle.nd_base.specs.GraphRules.{IsBetween};
ghost use Rattle.nd_series.specs.Words.{regions_in};
ghost use Rattle.tool_commands.specs.Answers.{objects_of, Ends, status_of};
ghost use Rattle.tool_commands.specs.Stages.{WritesAll};
ghost use Rattle.tool_commands.specs.Causes.{IsCause};
ghost use Rattle.tool_commands.specs.Command.{Series};
ghost use Rattle.tool_commands.specs.Unread.{FailsIn, IfUnread};
ghost use Rattle.tool_commands.specs.Works.{outcome_of};

use crate::printing::save_text;
use crate::sources::load_stack;
use crate::stack_files::print_frames;
use crate::status::Status;
use edge_traits::{Library, Shelf, Sink};
use nd_series::{parse_regions, series_of, series_text};
use std::alloc::Global;

/// Writes the series of these regions over the last frames of a stack, `most` of them, to a file of this name, and prints how many frames the stack
/// has.
pub(crate) fn series<L: Library, K: Shelf, T: Sink>(
    alloc: Global,
    most: u32,
    regions: &str,
    stack: &str,
    name: &str,
    library: &mut L,
    shelf: &mut K,
    out: &mut T,
) -> Result<(), Status>
    requires most { IsBetween 1 4096 most }
    requires regions { IsSome (regions_in regions.now) }
    ensures ends { Ends (status_of result) (Some (Series most (unwrap_or (regions_in regions.now) []) stack.now name.now))
        (objects_of (L.holds library.old) (K.held shelf.old) (K.held shelf.new) (T.written out.old) (T.written out.new)) }
    ensures cause { IsCause (status_of result) (record { library = L.faults library.old; shelf = K.faults shelf.old; sink = T.faults out.old })
        (record { library = L.faults library.new; shelf = K.faults shelf.new; sink = T.faults out.new }) }
    ensures unread { IfUnread (status_of result)
        (FailsIn (L.holds library.old) (L.faults_at library.old) (L.faults_at library.new) (outcome_of (Some (Series most (unwrap_or (regions_in regions.now) []) stack.now name.now)))) }
    ensures finished { WritesAll (status_of result) → K.all_finished shelf.old → K.all_finished shelf.new }
    ensures library { L.holds library.new ≡ L.holds library.old }
{
    let stack = load_stack(alloc, library, stack)?;
    let Some(regions) = parse_regions(alloc, regions)? else {
        unreachable!()
    };
    let series = series_of(alloc, &regions, most, &stack)?;
    let text = series_text(alloc, &series)?;
    save_text(shelf, name, text.as_str())?;
    print_frames(alloc, out, stack.frames())
}
