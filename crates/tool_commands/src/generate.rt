//! `gen N W H KIND START NAME`: writes a stack that a rule makes.

ghost use Rattle.std.specs.Prelude.{◌≡◌, ◌≢◌, ℕ, List, Option, Some};
ghost use Rattle.edge_traits.specs.Files.{Files};
ghost use Rattle.nd_stack.specs.Generated.{gen_fault};
ghost use Rattle.nd_stack.specs.declared.generated.GenFault.TheVariants as faults;
ghost use Rattle.tool_commands.specs.Answers.{objects_of, Ends, status_of};
ghost use Rattle.tool_commands.specs.Stages.{WritesAll};
ghost use Rattle.tool_commands.specs.Causes.{IsCause};
ghost use Rattle.tool_commands.specs.Command.{Gen};

use crate::status::Status;
use crate::words::GenRule;
use edge_traits::Shelf;
use graph_conf::LimitFault;
use nd_stack::{GenFault, gen_stack};
use stack_file::{Unchanged, save_stack};
use std::alloc::Global;

/// Writes the stack that a rule makes to a file of this name, or nothing where it has no frame. It reads and prints nothing.
pub(crate) fn generate<K: Shelf>(
    alloc: Global,
    rule: GenRule,
    name: &str,
    shelf: &mut K,
) -> Result<(), Status>
    requires { gen_fault rule.frames rule.width rule.height rule.kind ≢ Some faults.GenRange }
    ensures ends { (told : Option Files) (sink : Option (List ℕ))
        → Ends (status_of result) (Some (Gen rule name.now)) (objects_of told (K.held shelf.old) (K.held shelf.new) sink sink) }
    ensures cause { (library sink : ℕ) → IsCause (status_of result) (record { library = library; shelf = K.faults shelf.old; sink = sink })
        (record { library = library; shelf = K.faults shelf.new; sink = sink }) }
    ensures finished { WritesAll (status_of result) → K.all_finished shelf.old → K.all_finished shelf.new }
{
    let stack = match gen_stack(
        alloc,
        rule.frames,
        rule.width,
        rule.height,
        rule.kind,
        rule.start,
    ) {
        Ok(stack) => stack,
        Err(GenFault::GenBytes { bytes }) => return Err(Status::Limit(LimitFault::GenBytes {
            bytes,
        })),
        Err(GenFault::OutOfMemory) => return Err(Status::OutOfMemory),
        Err(GenFault::GenRange) => unreachable!(),
    };
    save_stack(alloc, shelf, name, stack.shape(), &stack, &Unchanged)?;
    Ok(())
}
