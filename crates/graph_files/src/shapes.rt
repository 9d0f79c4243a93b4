//! The shape of a node's files.

ghost use Rattle.std.specs.Prelude.{◌≡◌, IfOk};
ghost use Rattle.nd_base.specs.GraphRules.{IsGraph};
ghost use Rattle.chain_plain.specs.Plans.{plan_of};
ghost use Rattle.graph_files.specs.OutFiles.{kind_form, form_at, file_shape};

use chain_plain::maker_for;
use nd_base::{FileShape, Form, Kind, OutOfMemory, Plan, Stack, rule_at};
use nd_stack::shape_for;
use std::alloc::Global;

/// The form of the files of a node of this kind; only file nodes choose one.
fn kind_form(kind: &Kind) -> Form
    ensures { result ≡ kind_form kind.now }
{
    match kind {
        Kind::File(file) => file.form,
        Kind::Roi(_) | Kind::Stats(_) | Kind::Circular(_) | Kind::Scatter => Form::Classic,
    }
}

/// The form of a node's files.
fn form_at(plan: &Plan, node: u32) -> Form
    ensures { result ≡ form_at plan.now.graph.nodes node }
{
    match rule_at(plan.graph.nodes.as_slice(), node) {
        Some(rule) => kind_form(&rule.kind),
        None => Form::Classic,
    }
}

/// The shape of the arrays that go out of a node, as its files have it.
///
/// # Errors
///
/// Only for want of memory.
pub fn file_shape(
    alloc: Global,
    plan: &Plan,
    stack: &Stack,
    node: u32,
) -> Result<FileShape, OutOfMemory>
    requires graph { IsGraph plan.now.graph }
    requires plan { plan.now ≡ plan_of plan.now.graph stack.now }
    ensures { IfOk result (λ shape. shape ≡ file_shape plan.now.graph stack.now node) }
{
    let maker = maker_for(plan, stack, node);
    let mut shape = shape_for(alloc, stack, maker.kind, maker.dims.as_slice())?;
    shape.form = form_at(plan, node);
    Ok(shape)
}
