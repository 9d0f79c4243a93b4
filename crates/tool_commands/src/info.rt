//! `info STACK`: reads a stack, and prints what it is.

ghost use Rattle.std.specs.Prelude.{◌≡◌, ◌++◌, ℕ, length, Option, Some, IfOk, OnOk, string_bytes};
ghost use Rattle.edge_traits.specs.Files.{Files};
ghost use Rattle.tool_commands.specs.Answers.{objects_of, Ends, status_of};
ghost use Rattle.tool_commands.specs.Causes.{IsCause};
ghost use Rattle.tool_commands.specs.Command.{Info};
ghost use Rattle.tool_commands.specs.Info.{type_word, attr_word, kind_line, sizes, dims_line, ids_line, attr_line, attr_lines, info_text};
ghost use Rattle.tool_commands.specs.Printed.{frames_line};
ghost use Rattle.tool_commands.specs.Unread.{FailsIn, IfUnread};
ghost use Rattle.tool_commands.specs.Works.{outcome_of};

use crate::printing::print;
use crate::sources::load_stack;
use crate::status::Status;
use edge_traits::{Library, Sink};
use nd_base::{AttrColumn, AttrKind, Dim, OutOfMemory, SampleType, Stack};
use std::alloc::{AllocError, Global};
use std::fmt::Write;

/// The word for a sample type.
fn type_word(kind: SampleType) -> &'static str
    ensures { result.now ≡ type_word kind }
{
    match kind {
        SampleType::Int8 => "Int8",
        SampleType::UInt8 => "UInt8",
        SampleType::Int16 => "Int16",
        SampleType::UInt16 => "UInt16",
        SampleType::Int32 => "Int32",
        SampleType::UInt32 => "UInt32",
    }
}

/// The word for a kind of attribute.
fn attr_word(kind: AttrKind) -> &'static str
    ensures { result.now ≡ attr_word kind }
{
    match kind {
        AttrKind::WholeKind => "whole",
        AttrKind::TextKind => "text",
        AttrKind::Bits64Kind => "bits64",
        AttrKind::Bits32Kind => "bits32",
    }
}

/// Appends the line of the sample type.
fn push_kind(text: &mut String, kind: SampleType) -> Result<(), AllocError>
    ensures { OnOk result (string_bytes text.new ≡ string_bytes text.old ++ kind_line kind) }
{
    let word = type_word(kind);
    writeln!(text, "kind {word}")
}

/// Appends the sizes of dimensions with a space before each.
fn push_sizes(text: &mut String, dims: &[Dim]) -> Result<(), AllocError>
    ensures { OnOk result (string_bytes text.new ≡ string_bytes text.old ++ sizes dims.now) }
{
    for dim in dims {
        let size = dim.size;
        write!(text, " {size}")?;
    }
    Ok(())
}

/// Appends the line of the dimensions.
fn push_dims(text: &mut String, dims: &[Dim]) -> Result<(), AllocError>
    ensures { OnOk result (string_bytes text.new ≡ string_bytes text.old ++ dims_line dims.now) }
{
    text.push_str("dims")?;
    push_sizes(text, dims)?;
    text.push_str("\n")
}

/// Appends the line of the number of frames.
fn push_frames(text: &mut String, frames: u32) -> Result<(), AllocError>
    ensures { OnOk result (string_bytes text.new ≡ string_bytes text.old ++ frames_line frames) }
{
    writeln!(text, "frames {frames}")
}

/// Appends the line of the first and the last id, where there is a frame.
fn push_ids(text: &mut String, stack: &Stack) -> Result<(), AllocError>
    ensures { OnOk result (string_bytes text.new ≡ string_bytes text.old ++ ids_line stack.now.arrays) }
{
    let frames = stack.frames();
    if frames == 0 {
        return Ok(());
    }
    let first = stack.head(0).id;
    let last = stack.head(frames - 1).id;
    writeln!(text, "ids {first} {last}")
}

/// Appends the line of an attribute.
fn push_attr(text: &mut String, attr: &AttrColumn) -> Result<(), AllocError>
    ensures { OnOk result (string_bytes text.new ≡ string_bytes text.old ++ attr_line attr.now) }
{
    let name = attr.name.text();
    let word = attr_word(attr.kind);
    writeln!(text, "attr {name} {word}")
}

/// Appends a line for each attribute.
fn push_attrs(text: &mut String, attrs: &[AttrColumn]) -> Result<(), AllocError>
    ensures { OnOk result (string_bytes text.new ≡ string_bytes text.old ++ attr_lines attrs.now) }
{
    for attr in attrs {
        push_attr(text, attr)?;
    }
    Ok(())
}

/// The sample type, the dimensions, the number of frames, the first and the last id where there is a frame,
/// and the attributes, each in a line of its own.
///
/// # Errors
///
/// Where memory is refused.
pub(crate) fn info_text(alloc: Global, stack: &Stack) -> Result<String, OutOfMemory>
    ensures { IfOk result (λ t. string_bytes t ≡ info_text stack.now) }
{
    let shape = stack.shape();
    let mut text = String::new(alloc);
    push_kind(&mut text, shape.kind)?;
    push_dims(&mut text, shape.dims.as_slice())?;
    push_frames(&mut text, stack.frames())?;
    push_ids(&mut text, stack)?;
    push_attrs(&mut text, shape.attrs.as_slice())?;
    Ok(text)
}

/// Prints what a stack is. It writes no file.
pub(crate) fn info<L: Library, T: Sink>(
    alloc: Global,
    name: &str,
    library: &mut L,
    out: &mut T,
) -> Result<(), Status>
    ensures ends { (held : Option Files) → Ends (status_of result) (Some (Info name.now))
        (objects_of (L.holds library.old) held held (T.written out.old) (T.written out.new)) }
    ensures cause { (shelf : ℕ) → IsCause (status_of result) (record { library = L.faults library.old; shelf = shelf; sink = T.faults out.old })
        (record { library = L.faults library.new; shelf = shelf; sink = T.faults out.new }) }
    ensures unread { IfUnread (status_of result)
        (FailsIn (L.holds library.old) (L.faults_at library.old) (L.faults_at library.new) (outcome_of (Some (Info name.now)))) }
    ensures library { L.holds library.new ≡ L.holds library.old }
{
    let stack = load_stack(alloc, library, name)?;
    let text = info_text(alloc, &stack)?;
    print(out, text.as_str())
}
