//! Reading or making what a run goes over.

ghost use Rattle.std.specs.Prelude.{◌≡◌, Err, OnOk, IfOk, IfErr};
ghost use Rattle.chain_plain.specs.Plans.{plan_of};
ghost use Rattle.tool_commands.specs.Outcomes.{Leads};
ghost use Rattle.replay_top.specs.RunCommand.{IsInRange, IsRead};
ghost use Rattle.replay_top.specs.RunSources.{run_sources, IsSourceRead};
ghost use Rattle.replay_top.specs.RunWords.{source_told};
ghost use Rattle.tool_commands.specs.Stages.{ReadStops};
ghost use Rattle.tool_commands.specs.Unread.{FailsIn, IfUnread};

use crate::demo::make_demo;
use crate::run_words::RunSource;
use edge_traits::Library;
use nd_base::{Plan, Stack};
use std::alloc::Global;
use tool_commands::{Status, load_sources};

/// Reads what a run goes over, or makes it, which reads no file.
pub(crate) fn load_run<L: Library>(
    alloc: Global,
    library: &mut L,
    source: RunSource<'_>,
) -> Result<(Plan, Stack), Status>
    requires { IsInRange (source_told source) }
    ensures read { IfOk result (λ r. IsSourceRead (L.holds library.old) (source_told source.entry) (record { graph = r.0.graph; stack = r.1 })) }
    ensures plan { IfOk result (λ r. r.0 ≡ plan_of r.0.graph r.1) }
    ensures stays { OnOk result (L.faults library.new ≡ L.faults library.old) }
    ensures files { L.holds library.new ≡ L.holds library.old }
    ensures err { IfErr result (λ s. ReadStops (λ status. Leads (L.holds library.old) (run_sources (source_told source.entry)) (Err status)) s
        (L.faults library.old) (L.faults library.new)) }
    ensures read_fault { IfErr result (λ s. s ≡ Status.ReadFault → IsRead (source_told source.entry)) }
    ensures unread { IfErr result (λ s. IfUnread s
        (FailsIn (L.holds library.old) (L.faults_at library.old) (L.faults_at library.new) (run_sources (source_told source.entry)))) }
{
    match source {
        RunSource::Named { graph, stack } => load_sources(alloc, library, graph, stack),
        RunSource::Demo { frames } => Ok(make_demo(alloc, frames)?),
    }
}
