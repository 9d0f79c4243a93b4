//! Reading the files of a command.

ghost use Rattle.std.specs.Prelude.{◌≡◌, None, Ok, Err, OnOk, IfOk, IfErr};
ghost use Rattle.nd_base.specs.GraphRules.{IsGraph};
ghost use Rattle.nd_stack.specs.Answers.{Gives};
ghost use Rattle.nd_stack.specs.KeptStacks.{IsKeptStack};
ghost use Rattle.nd_stack.specs.StackRules.{stack_of};
ghost use Rattle.tool_commands.specs.Inputs.{AsGraph, AsStack, IsReadAs, IsRefusedAs, most_graph_bytes, most_stack_bytes};
ghost use Rattle.chain_plain.specs.Plans.{plan_of};
ghost use Rattle.graph_conf.specs.Loads.{limit_fault};
ghost use Rattle.tool_commands.specs.Outcomes.{Leads};
ghost use Rattle.tool_commands.specs.Stages.{PlanStops, ReadStops, graph_read_status, stack_read_status};
ghost use Rattle.tool_commands.specs.Unread.{NoneFailed, FailedAt, FailsIn, IfUnread};
ghost use Rattle.tool_commands.specs.Works.{sources};

use crate::reading::{ReadRefusal, read_file};
use crate::status::Status;
use chain_plain::plan;
use edge_traits::Library;
use graph_conf::{LimitFault, check_load, read_graph};
use nd_base::{Graph, Plan, Stack};
use nd_stack::{StackFault, read_stack, stacks_read_back};
use std::alloc::Global;

/// The most bytes of a graph's file.
const GRAPH_LIMIT: u64 = 1_048_576;

/// The most bytes of a stack's file.
const STACK_LIMIT: u64 = 1_073_741_824;

/// The status of a graph's file that wasn't read.
fn unread_graph(refusal: ReadRefusal) -> Status
    ensures { result ≡ graph_read_status refusal }
{
    match refusal {
        ReadRefusal::TooLong { bytes } => Status::Limit(LimitFault::GraphBytes { bytes }),
        ReadRefusal::Failed => Status::ReadFault,
        ReadRefusal::OutOfMemory => Status::OutOfMemory,
    }
}

/// The status of a stack's file that wasn't read.
fn unread_stack(refusal: ReadRefusal) -> Status
    ensures { result ≡ stack_read_status refusal }
{
    match refusal {
        ReadRefusal::TooLong { bytes } => Status::Limit(LimitFault::StackFile { bytes }),
        ReadRefusal::Failed => Status::ReadFault,
        ReadRefusal::OutOfMemory => Status::OutOfMemory,
    }
}

/// Reads a graph.
fn load_graph<L: Library>(alloc: Global, library: &mut L, name: &str) -> Result<Graph, Status>
    ensures ok { IfOk result (λ g. IsReadAs (L.holds library.old) AsGraph name.now g) }
    ensures stays { OnOk result (L.faults library.new ≡ L.faults library.old) }
    ensures files { L.holds library.new ≡ L.holds library.old }
    ensures err { IfErr result (λ s. ReadStops (IsRefusedAs (L.holds library.old) AsGraph name.now) s (L.faults library.old) (L.faults library.new)) }
    ensures none_failed { OnOk result (NoneFailed (L.faults_at library.old) (L.faults_at library.new)) }
    ensures unread { IfErr result (λ s. IfUnread s (FailedAt (L.holds library.old) most_graph_bytes (L.faults_at library.old) (L.faults_at library.new) name.now)) }
{
    let bytes = match read_file(alloc, library, name, GRAPH_LIMIT) {
        Ok(bytes) => bytes,
        Err(refusal) => return Err(unread_graph(refusal)),
    };
    match read_graph(alloc, &bytes) {
        Ok(graph) => Ok(graph),
        Err(fault) => Err(Status::from(fault)),
    }
}

/// The stack of a file's bytes.
fn stack_in(alloc: Global, bytes: Vec<u8>) -> Result<Stack, StackFault>
    ensures gives { Gives (λ stack. stack) result (stack_of bytes.items) }
    ensures kept { IfOk result IsKeptStack }
{
    stacks_read_back();
    read_stack(alloc, bytes)
}

/// Reads a stack.
pub(crate) fn load_stack<L: Library>(
    alloc: Global,
    library: &mut L,
    name: &str,
) -> Result<Stack, Status>
    ensures ok { IfOk result (λ stack. IsReadAs (L.holds library.old) AsStack name.now stack) }
    ensures kept { IfOk result IsKeptStack }
    ensures stays { OnOk result (L.faults library.new ≡ L.faults library.old) }
    ensures files { L.holds library.new ≡ L.holds library.old }
    ensures err { IfErr result (λ s. ReadStops (IsRefusedAs (L.holds library.old) AsStack name.now) s (L.faults library.old) (L.faults library.new)) }
    ensures none_failed { OnOk result (NoneFailed (L.faults_at library.old) (L.faults_at library.new)) }
    ensures unread { IfErr result (λ s. IfUnread s (FailedAt (L.holds library.old) most_stack_bytes (L.faults_at library.old) (L.faults_at library.new) name.now)) }
{
    let bytes = match read_file(alloc, library, name, STACK_LIMIT) {
        Ok(bytes) => bytes,
        Err(refusal) => return Err(unread_stack(refusal)),
    };
    match stack_in(alloc, bytes) {
        Ok(stack) => Ok(stack),
        Err(fault) => Err(Status::from(fault)),
    }
}

/// The plan of a graph over a stack that passes none of its limits.
pub(crate) fn plan_within(alloc: Global, graph: Graph, stack: &Stack) -> Result<Plan, Status>
    requires graph { IsGraph graph }
    requires kept { IsKeptStack stack.now }
    ensures plan { IfOk result (λ plan. plan ≡ plan_of graph stack.now) }
    ensures within { OnOk result (limit_fault graph stack.now ≡ None) }
    ensures err { IfErr result (λ s. PlanStops s graph stack.now) }
{
    let plan = plan(alloc, graph, stack)?;
    check_load(&plan.graph, stack, &plan)?;
    Ok(plan)
}

/// Reads a graph, and then a stack that the graph may go over.
///
/// # Errors
///
/// The first refusal of the two files, of which no count of faults rises; `ReadFault` where the library failed, whose count rose; and
/// `OutOfMemory`.
pub fn load_sources<L: Library>(
    alloc: Global,
    library: &mut L,
    graph: &str,
    stack: &str,
) -> Result<(Plan, Stack), Status>
    ensures read { IfOk result (λ r. Leads (L.holds library.old) (sources graph.now stack.now) (Ok (record { graph = r.0.graph; stack = r.1 }))) }
    ensures sound { IfOk result (λ r. IsGraph r.0.graph) }
    ensures kept { IfOk result (λ r. IsKeptStack r.1) }
    ensures within { IfOk result (λ r. limit_fault r.0.graph r.1 ≡ None) }
    ensures plan { IfOk result (λ r. r.0 ≡ plan_of r.0.graph r.1) }
    ensures stays { OnOk result (L.faults library.new ≡ L.faults library.old) }
    ensures files { L.holds library.new ≡ L.holds library.old }
    ensures err { IfErr result (λ s. ReadStops (λ status. Leads (L.holds library.old) (sources graph.now stack.now) (Err status)) s
        (L.faults library.old) (L.faults library.new)) }
    ensures none_failed { OnOk result (NoneFailed (L.faults_at library.old) (L.faults_at library.new)) }
    ensures unread { IfErr result (λ s. IfUnread s
        (FailsIn (L.holds library.old) (L.faults_at library.old) (L.faults_at library.new) (sources graph.now stack.now))) }
{
    let graph = load_graph(alloc, library, graph)?;
    let stack = load_stack(alloc, library, stack)?;
    let plan = plan_within(alloc, graph, &stack)?;
    Ok((plan, stack))
}
