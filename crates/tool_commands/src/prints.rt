//! What a plain run prints.

ghost use Rattle.std.specs.Prelude.{◌≡◌, ◌++◌, IfOk, OnOk, string_bytes};
ghost use Rattle.nd_base.specs.GraphRules.{IsGraph};
ghost use Rattle.tool_commands.specs.PlainText.{out_line, plain_text};

use nd_base::{OutOfMemory, Plan, Stack};
use plain_saver::passed;
use std::alloc::{AllocError, Global};
use std::fmt::Write;

/// Appends the line of a node of this name, which so many arrays go out of.
fn push_line(text: &mut String, name: &str, count: usize) -> Result<(), AllocError>
    ensures { OnOk result (string_bytes text.new ≡ string_bytes text.old ++ out_line name.now count) }
{
    write!(text, "node {name} out {count}\n")
}

/// The number of frames, and of each node the number of arrays that go out of it.
pub(crate) fn plain_text(alloc: Global, plan: &Plan, stack: &Stack) -> Result<String, OutOfMemory>
    requires { IsGraph plan.now.graph }
    ensures { IfOk result (λ text. string_bytes text ≡ plain_text plan.now.graph stack.now) }
{
    let frames = stack.frames();
    let mut text = format!(in alloc; "frames {frames}\n")?;
    let nodes = plan.graph.nodes.as_slice();
    for place in 0..nodes.len() {
        let count = passed(alloc, plan, stack, place as u32 + 1)?.len();
        push_line(&mut text, nodes[place].name.text(), count)?;
    }
    Ok(text)
}
