//! The top call.

ghost use Rattle.std.specs.Prelude.{◌≡◌, ◌⊎◌, ◌↔◌, map, None, Err, string_bytes};
ghost use Rattle.tool_commands.specs.Stages.{WritesAll};
ghost use Rattle.tool_commands.specs.Answers.{objects_of, Ends, status_of, IsRefusal, IsDone, IsWorkBegun, IsPrintCutShort};
ghost use Rattle.tool_commands.specs.Causes.{IsCause};
ghost use Rattle.tool_commands.specs.Claims.{Completes};
ghost use Rattle.tool_commands.specs.Command.{command_of};
ghost use Rattle.tool_commands.specs.Outcomes.{Leads};
ghost use Rattle.tool_commands.specs.Unread.{FailsIn, IfUnread, Decides};
ghost use Rattle.tool_commands.specs.Works.{outcome_of};

use crate::copy::copy;
use crate::correct::correct;
use crate::generate::generate;
use crate::info::info;
use crate::orient::orient;
use crate::plain::plain;
use crate::series::series;
use crate::status::{Status, status_of};
use crate::words::{Command, command_in};
use edge_traits::{Library, Shelf, Sink};
use std::alloc::Global;

/// Does what the words ask for, and always returns.
fn run_command<L: Library, K: Shelf, T: Sink>(
    alloc: Global,
    words: &[String],
    library: &mut L,
    shelf: &mut K,
    out: &mut T,
) -> Result<(), Status>
    ensures ends { Ends (status_of result) (command_of (map string_bytes words.now))
        (objects_of (L.holds library.old) (K.held shelf.old) (K.held shelf.new) (T.written out.old) (T.written out.new)) }
    ensures cause { IsCause (status_of result) (record { library = L.faults library.old; shelf = K.faults shelf.old; sink = T.faults out.old })
        (record { library = L.faults library.new; shelf = K.faults shelf.new; sink = T.faults out.new }) }
    ensures unread { IfUnread (status_of result)
        (FailsIn (L.holds library.old) (L.faults_at library.old) (L.faults_at library.new) (outcome_of (command_of (map string_bytes words.now)))) }
    ensures library { L.holds library.new ≡ L.holds library.old }
    ensures finished { WritesAll (status_of result) → K.all_finished shelf.old → K.all_finished shelf.new }
{
    match command_in(words) {
        Some(Command::Copy { stack, prefix }) => copy(alloc, stack, prefix, library, shelf, out),
        Some(
            Command::Plain {
                graph,
                stack,
                prefix,
            },
        ) => plain(alloc, graph, stack, prefix, library, shelf, out),
        Some(Command::Info { stack }) => info(alloc, stack, library, out),
        Some(Command::Gen { rule, name }) => generate(alloc, rule, name, shelf),
        Some(Command::Orient { mode, stack, name }) => orient(
            alloc, mode, stack, name, library, shelf, out,
        ),
        Some(
            Command::Correct {
                rule,
                dark,
                stack,
                name,
            },
        ) => correct(alloc, &rule, dark, stack, name, library, shelf, out),
        Some(
            Command::Series {
                most,
                regions,
                stack,
                name,
            },
        ) => series(alloc, most, regions, stack, name, library, shelf, out),
        None => Err(Status::Usage),
    }
}

/// Does what the words of the command line ask for: it reads from the library, writes files to the shelf and
/// prints to the sink, and answers how it ended. It waits for nobody and always returns.
///
/// The commands are `copy STACK PREFIX`, `plain GRAPH STACK PREFIX`, `info STACK`, `gen N W H KIND START NAME`, `orient MODE STACK NAME`,
/// `correct DARK STACK NAME OFFSET NUM DEN LOW HIGH` and `series LENGTH REGIONS STACK NAME`.
pub fn tool_top<L: Library, K: Shelf, T: Sink>(
    alloc: Global,
    words: &[String],
    library: &mut L,
    shelf: &mut K,
    out: &mut T,
) -> Status
    // Done: what the command is there for, and nothing else.
    ensures done { result ≡ Status.Done → IsDone (outcome_of (command_of (map string_bytes words.now)))
        (objects_of (L.holds library.old) (K.held shelf.old) (K.held shelf.new) (T.written out.old) (T.written out.new)) }

    // Where all files were written, all names are finished.
    ensures finished { WritesAll result → K.all_finished shelf.old → K.all_finished shelf.new }

    // Refusals: exactly where the words are no command; and where the files that were read, in the command's order, lead to it.
    ensures usage { (result ≡ Status.Usage) ↔ (command_of (map string_bytes words.now) ≡ None) }
    ensures refused { IsRefusal result → Leads (L.holds library.old) (outcome_of (command_of (map string_bytes words.now))) (Err result) }

    // What a status other than Done leaves. The files that are read stay, whatever the status.
    ensures library { L.holds library.new ≡ L.holds library.old }
    ensures untouched { IsRefusal result ⊎ (result ≡ Status.ReadFault) → (K.held shelf.new ≡ K.held shelf.old) × (T.written out.new ≡ T.written out.old) }
    ensures shelf_fault { result ≡ Status.ShelfFault → IsWorkBegun (outcome_of (command_of (map string_bytes words.now)))
        (objects_of (L.holds library.old) (K.held shelf.old) (K.held shelf.new) (T.written out.old) (T.written out.new)) }
    ensures out_fault { result ≡ Status.OutFault → IsPrintCutShort (outcome_of (command_of (map string_bytes words.now)))
        (objects_of (L.holds library.old) (K.held shelf.old) (K.held shelf.new) (T.written out.old) (T.written out.new)) }
    ensures memory { result ≡ Status.OutOfMemory → (K.held shelf.new ≡ K.held shelf.old) × (T.written out.new ≡ T.written out.old)
        ⊎ IsWorkBegun (outcome_of (command_of (map string_bytes words.now)))
        (objects_of (L.holds library.old) (K.held shelf.old) (K.held shelf.new) (T.written out.old) (T.written out.new)) }

    // Faults come only where their object's count rose, and that of the library only at a file of the command whose earlier files were read and lead to it:
    // for its size, or for bytes of it where it is within its limit.
    ensures cause { IsCause result (record { library = L.faults library.old; shelf = K.faults shelf.old; sink = T.faults out.old })
        (record { library = L.faults library.new; shelf = K.faults shelf.new; sink = T.faults out.new }) }
    ensures unread { result ≡ Status.ReadFault
        → FailsIn (L.holds library.old) (L.faults_at library.old) (L.faults_at library.new) (outcome_of (command_of (map string_bytes words.now))) }

    // The files decide: whatever was counted, and with no other status but OutOfMemory where no count rose.
    ensures decides { Decides (outcome_of (command_of (map string_bytes words.now))) (L.holds library.old)
        (L.faults_at library.old) (L.faults_at library.new) result }
    ensures complete { Completes (outcome_of (command_of (map string_bytes words.now))) result (L.holds library.old)
        (record { library = L.faults library.old; shelf = K.faults shelf.old; sink = T.faults out.old })
        (record { library = L.faults library.new; shelf = K.faults shelf.new; sink = T.faults out.new }) }
{
    status_of(run_command(alloc, words, library, shelf, out))
}
