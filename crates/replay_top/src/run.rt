//! `run GRAPH STACK PREFIX`, `run-log` and `watch` with the same words, and `demo N`: runs a graph over a stack with its threads.

ghost use Rattle.std.specs.Prelude.{◌≡◌, ◌⊎◌, ◌↔◌, ◌++◌, true, map, length, reverse, All, None, Some, Err, IsSome, IfOk, OnOk, IfErr, string_bytes};
ghost use Rattle.edge_traits.specs.Written.{with_written};
ghost use Rattle.flow_journal.specs.TextFaults.{Fits};
ghost use Rattle.nd_base.specs.GraphRules.{IsGraph};
ghost use Rattle.run_report.specs.Report.{report};
ghost use Rattle.run_report.specs.Text.{report_text};
ghost use Rattle.graph_files.specs.OutFiles.{with_files};
ghost use Rattle.tool_commands.specs.Answers.{status_of, IsRefusal};
ghost use Rattle.tool_commands.specs.Claims.{Completes};
ghost use Rattle.replay_top.specs.RunAnswers.{run_objects_of, RunEnds, IsRunCause, OfLog, HasFinished, HasLog, IsRunDone, IsRunTorn, IsRunCutShort, IsRunStopped};
ghost use Rattle.replay_top.specs.MeasuredFiles.{measured_files};
ghost use Rattle.tool_commands.specs.Outcomes.{Leads};
ghost use Rattle.tool_commands.specs.Unread.{FailsIn, IfUnread, Decides};
ghost use Rattle.replay_top.specs.RunCommand.{run_command_of, IsInRange, ReadsFiles};
ghost use Rattle.replay_top.specs.DemoRuns.{IsDemoSteady};
ghost use Rattle.replay_top.specs.RunSources.{sources_of};
ghost use Rattle.replay_top.specs.LogFiles.{log_files};
ghost use Rattle.replay_top.specs.RunWords.{run_told, source_told};
ghost use Rattle.replay_top.specs.RunStages.{LaterStops, RestEnds, RestCause};
ghost use Rattle.tool_commands.specs.Stages.{PrintStops, WritesAll};

use crate::exit::{Exit, unfinished};
use crate::histories::run_plan;
use crate::run_rows::save_later;
use crate::run_sources::load_run;
use crate::run_words::{RunWords, run_in};
use demo_laws::demos_are_whole;
use edge_traits::{Clock, Gate, Library, Shelf, Sink};
use flow_run::RunEnd;
use flow_saver::{groups_read_back, rows_complete_the_files};
use flow_watch::WatchEnd;
use log_lengths::log_texts_are_short;
use nd_base::{OutOfMemory, Plan};
use run_laws::finished_runs_hold;
use run_report::{counters, report_text};
use std::alloc::Global;
use std::sync::Wait;
use std::thread::Threads;
use tool_commands::{Status, finish_all, print, status_of};

/// Writes the rows of the statistics nodes, and the log's text where `logs` says so. All names are finished then.
fn save_rest<K: Shelf>(
    alloc: Global,
    shelf: &mut K,
    prefix: &str,
    plan: &Plan,
    history: &RunEnd,
    logs: bool,
) -> Result<(), Status>
    requires graph { IsGraph plan.now.graph }
    requires measures { length history.now.measures ≡ length plan.now.graph.nodes }
    ensures ok { OnOk result (K.held shelf.new ≡ with_files (K.held shelf.old)
        (measured_files prefix.now plan.now.graph.nodes history.now.measures ++ log_files logs prefix.now history.now.log.past)) }
    ensures fits { OnOk result (logs ≡ true → All Fits (reverse history.now.log.past)) }
    ensures finished { OnOk result (K.all_finished shelf.new) }
    ensures stays { OnOk result (K.faults shelf.new ≡ K.faults shelf.old) }
    ensures err { IfErr result (λ s. LaterStops s (K.held shelf.old)
        (measured_files prefix.now plan.now.graph.nodes history.now.measures ++ log_files logs prefix.now history.now.log.past)
        (K.held shelf.new) (K.faults shelf.old) (K.faults shelf.new)) }
{
    save_later(
        alloc,
        shelf,
        prefix,
        &plan.graph,
        &history.measures,
        &history.log,
        logs,
    )?;
    finish_all(shelf)
}

/// What was seen of a run while it went on, and the report of its log.
fn text_of(alloc: Global, plan: &Plan, ended: &WatchEnd) -> Result<String, OutOfMemory>
    ensures { IfOk result (λ text. string_bytes text ≡ string_bytes ended.now.seen ++ report_text plan.now.graph (report plan.now ended.now.run.log.past)) }
{
    let counters = counters(alloc, plan, &ended.run.log)?;
    let report = report_text(alloc, &plan.graph, &counters)?;
    let seen = ended.seen.as_str();
    Ok(format!(in alloc; "{seen}{report}")?)
}

/// Prints it.
fn print_end<T: Sink>(
    alloc: Global,
    out: &mut T,
    plan: &Plan,
    ended: &WatchEnd,
) -> Result<(), Status>
    ensures ok { OnOk result (T.written out.new ≡ with_written (T.written out.old)
        (string_bytes ended.now.seen ++ report_text plan.now.graph (report plan.now ended.now.run.log.past))) }
    ensures stays { OnOk result (T.faults out.new ≡ T.faults out.old) }
    ensures err { IfErr result (λ s. PrintStops s (T.written out.old)
        (string_bytes ended.now.seen ++ report_text plan.now.graph (report plan.now ended.now.run.log.past)) (T.written out.new)
        (T.faults out.old) (T.faults out.new)) }
{
    let text = text_of(alloc, plan, ended)?;
    print(out, text.as_str())
}

/// Writes what there is to write once the groups stand, and prints what was seen and the report. Where the shelf has failed it does neither.
fn finish<K: Shelf, T: Sink>(
    alloc: Global,
    shelf: &mut K,
    out: &mut T,
    prefix: &str,
    plan: &Plan,
    ended: &WatchEnd,
    logs: bool,
) -> Result<(), Status>
    requires graph { IsGraph plan.now.graph }
    requires measures { length ended.now.run.measures ≡ length plan.now.graph.nodes }
    ensures ends { RestEnds (status_of result) ended.now.run.fault
        (measured_files prefix.now plan.now.graph.nodes ended.now.run.measures ++ log_files logs prefix.now ended.now.run.log.past)
        (string_bytes ended.now.seen ++ report_text plan.now.graph (report plan.now ended.now.run.log.past))
        (K.held shelf.old) (K.held shelf.new) (T.written out.old) (T.written out.new) }
    ensures fits { WritesAll (status_of result) → logs ≡ true → All Fits (reverse ended.now.run.log.past) }
    ensures finished { WritesAll (status_of result) → K.all_finished shelf.new }
    ensures cause { RestCause (status_of result) ended.now.run.fault (K.faults shelf.old) (K.faults shelf.new) (T.faults out.old) (T.faults out.new) }
{
    if ended.run.fault {
        return Err(Status::ShelfFault);
    }
    save_rest(alloc, shelf, prefix, plan, &ended.run, logs)?;
    print_end(alloc, out, plan, ended)
}

/// Runs what the words of a run ask for.
fn run_words<
    L: Library,
    K: Shelf,
    T: Sink,
    C: Clock + Send,
    G: Gate + Sync,
    W: Threads + Wait + Sync,
>(
    rt: &W,
    alloc: Global,
    words: RunWords<'_>,
    library: &mut L,
    shelf: &mut K,
    out: &mut T,
    clock: &mut C,
    gate: &G,
) -> Exit
    requires range { IsInRange (source_told words.source) }
    ensures ends { RunEnds result.status result.log (Some (run_told words.entry))
        (run_objects_of (L.holds library.old) (K.held shelf.old) (K.held shelf.new) (T.written out.old) (T.written out.new)
        (C.coming clock.old) (C.coming clock.new)) }
    ensures cause { IsRunCause result.status (record { library = L.faults library.old; shelf = K.faults shelf.old; sink = T.faults out.old })
        (record { library = L.faults library.new; shelf = K.faults shelf.new; sink = T.faults out.new }) }
    ensures unread { IfUnread result.status
        (FailsIn (L.holds library.old) (L.faults_at library.old) (L.faults_at library.new) (sources_of (Some (run_told words.entry)))) }
    ensures library { L.holds library.new ≡ L.holds library.old }
    ensures finished { WritesAll result.status → K.all_finished shelf.new }
{
    let (plan, stack) = match load_run(alloc, library, words.source) {
        Ok(loaded) => loaded,
        Err(status) => return unfinished(status),
    };
    groups_read_back();
    rows_complete_the_files();
    finished_runs_hold();
    log_texts_are_short();
    let Ok(ended) = run_plan(
        rt,
        alloc,
        &plan,
        &stack,
        words.prefix,
        shelf,
        clock,
        gate,
        words.watched,
    ) else {
        return unfinished(Status::OutOfMemory);
    };
    match status_of(finish(alloc, shelf, out, words.prefix, &plan, &ended, words.logs)) {
        Status::OutOfMemory => unfinished(Status::OutOfMemory),
        status => Exit {
            status,
            log: Some(ended.run.log),
        },
    }
}

/// Runs a graph over a stack: feeds its frames, works on them in a thread for each thread of each node, writes the files of its nodes, and
/// prints the report of its log. It waits for its threads.
///
/// The commands are `run GRAPH STACK PREFIX`; `run-log` with the same words, which writes the log's text to `<PREFIX>log.txt`, last; `watch` with the same
/// words, which prints before the report how far the run had come while it went on, as a reader in a thread of its own saw it; and `demo N`, which reads no
/// file: it makes a stack of N frames and a graph that has room for all of them, and its prefix is `demo_`.
pub fn run_top<
    L: Library,
    K: Shelf,
    T: Sink,
    C: Clock + Send,
    G: Gate + Sync,
    W: Threads + Wait + Sync,
>(
    rt: &W,
    alloc: Global,
    words: &[String],
    library: &mut L,
    shelf: &mut K,
    out: &mut T,
    clock: &mut C,
    gate: &G,
) -> Exit
    // The log is there exactly where the run has finished, and is then a finished history of the graph and the stack that were read, of which all
    // points of finished runs hold. With Done and OutFault the shelf holds its files, and the sink its report, where it is watched behind lines
    // of fronts of the log that grow and end with all of it, or a proper front of that; with ShelfFault each file is as it was left.
    ensures logged { HasFinished result.status ↔ IsSome result.log }
    ensures holds { HasFinished result.status → OfLog (HasLog
        (run_objects_of (L.holds library.old) (K.held shelf.old) (K.held shelf.new) (T.written out.old) (T.written out.new)
        (C.coming clock.old) (C.coming clock.new)))
        (run_command_of (map string_bytes words.now)) result.log }
    ensures done { result.status ≡ Status.Done → OfLog (IsRunDone
        (run_objects_of (L.holds library.old) (K.held shelf.old) (K.held shelf.new) (T.written out.old) (T.written out.new)
        (C.coming clock.old) (C.coming clock.new)))
        (run_command_of (map string_bytes words.now)) result.log }
    ensures shelf_fault { result.status ≡ Status.ShelfFault → OfLog (IsRunTorn
        (run_objects_of (L.holds library.old) (K.held shelf.old) (K.held shelf.new) (T.written out.old) (T.written out.new)
        (C.coming clock.old) (C.coming clock.new)))
        (run_command_of (map string_bytes words.now)) result.log }
    ensures out_fault { result.status ≡ Status.OutFault → OfLog (IsRunCutShort
        (run_objects_of (L.holds library.old) (K.held shelf.old) (K.held shelf.new) (T.written out.old) (T.written out.new)
        (C.coming clock.old) (C.coming clock.new)))
        (run_command_of (map string_bytes words.now)) result.log }

    // Where all files were written, all names are finished.
    ensures finished { WritesAll result.status → K.all_finished shelf.new }

    // In a demo nothing is dropped and nothing comes out of order, and so the report is the same each time.
    ensures demo { result.status ≡ Status.Done → OfLog (IsDemoSteady (T.written out.old) (T.written out.new))
        (run_command_of (map string_bytes words.now)) result.log }

    // Refusals: exactly where the words are no run; and where the files that were read, the graph first, lead to it. `demo` reads none.
    ensures usage { (result.status ≡ Status.Usage) ↔ (run_command_of (map string_bytes words.now) ≡ None) }
    ensures refused { IsRefusal result.status → Leads (L.holds library.old) (sources_of (run_command_of (map string_bytes words.now))) (Err result.status) }
    ensures read_fault { result.status ≡ Status.ReadFault → ReadsFiles (run_command_of (map string_bytes words.now)) }
    ensures untouched { IsRefusal result.status ⊎ (result.status ≡ Status.ReadFault)
        → (K.held shelf.new ≡ K.held shelf.old) × (T.written out.new ≡ T.written out.old) × (C.coming clock.new ≡ C.coming clock.old) }
    ensures memory { result.status ≡ Status.OutOfMemory → IsRunStopped (run_command_of (map string_bytes words.now))
        (run_objects_of (L.holds library.old) (K.held shelf.old) (K.held shelf.new) (T.written out.old) (T.written out.new)
        (C.coming clock.old) (C.coming clock.new)) }
    ensures library { L.holds library.new ≡ L.holds library.old }

    // Faults come only where their object's count rose, and that of the library only at the graph, or at the stack after the graph was read:
    // for its size, or for bytes of it where it is within its limit.
    ensures cause { IsRunCause result.status (record { library = L.faults library.old; shelf = K.faults shelf.old; sink = T.faults out.old })
        (record { library = L.faults library.new; shelf = K.faults shelf.new; sink = T.faults out.new }) }
    ensures unread { result.status ≡ Status.ReadFault → FailsIn (L.holds library.old) (L.faults_at library.old) (L.faults_at library.new)
        (sources_of (run_command_of (map string_bytes words.now))) }

    // The files decide: whatever was counted, and with no other status but OutOfMemory where no count rose.
    ensures decides { Decides (sources_of (run_command_of (map string_bytes words.now))) (L.holds library.old)
        (L.faults_at library.old) (L.faults_at library.new) result.status }
    ensures complete { Completes (sources_of (run_command_of (map string_bytes words.now))) result.status (L.holds library.old)
        (record { library = L.faults library.old; shelf = K.faults shelf.old; sink = T.faults out.old })
        (record { library = L.faults library.new; shelf = K.faults shelf.new; sink = T.faults out.new }) }
{
    demos_are_whole();
    match run_in(words) {
        Some(words) => run_words(rt, alloc, words, library, shelf, out, clock, gate),
        None => unfinished(Status::Usage),
    }
}
