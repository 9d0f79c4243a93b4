//! What a command ends with.

ghost use Rattle.std.specs.Prelude.{◌≡◌, ◌≢◌, ◌++◌, Some, All, IfOk, OnOk, string_bytes};
ghost use Rattle.tool_commands.specs.StatusText.{status_number, status_words, stack_fault_words, limit_fault_words, cdf_fault_words, calc_fault_words};
ghost use Rattle.tool_commands.specs.StatusText.{graph_fault_words, shown_char, one_line, status_line};
ghost use Rattle.tool_commands.specs.Answers.{status_of};

use cdf_read::CdfFault;
use file_out::SaveFault;
use graph_conf::{GraphFault, LimitFault};
use nd_base::OutOfMemory;
use nd_stack::StackFault;
use std::alloc::{AllocError, Global};
use std::fmt;
use trig_window::CalcFault;

/// What a command ends with. The process ends with its number.
#[derive(Debug, Drop)]
pub enum Status {
    /// The command did its work.
    Done,
    /// The words are no command with its number of words.
    Usage,
    /// The graph's bytes are no TOML.
    GraphText,
    /// The graph's text is no graph.
    GraphRule(GraphFault),
    /// The stack's bytes are refused.
    StackBytes(StackFault),
    /// A number passes its limit.
    Limit(LimitFault),
    /// The library failed.
    ReadFault,
    /// The shelf failed.
    ShelfFault,
    /// The sink failed.
    OutFault,
    /// Memory was wanting.
    OutOfMemory,
    /// Arrays haven't the dimensions that the command needs.
    Sizes,
}

impl Status {
    /// What the process ends with.
    pub fn number(&self) -> u8
        ensures { result ≡ status_number self.now }
    {
        match self {
            Status::Done => 0,
            Status::Usage => 1,
            Status::GraphText => 2,
            Status::GraphRule(_) => 3,
            Status::StackBytes(_) => 4,
            Status::Limit(_) => 5,
            Status::ReadFault => 6,
            Status::ShelfFault => 7,
            Status::OutFault => 8,
            Status::OutOfMemory => 9,
            Status::Sizes => 10,
        }
    }
}

/// The name and the fields of a fault of the header.
#[derive(Clone, Copy)]
struct CdfWords(CdfFault);

impl fmt::Display for CdfWords {
    ghost output = { λ w. Some (cdf_fault_words w.0) };

    fn fmt<W: fmt::Write>(&self, f: &mut fmt::Formatter<W>) -> fmt::Result {
        match self.0 {
            CdfFault::Magic => f.write_str("Magic"),
            CdfFault::Short { at } => write!(f, "Short {at}"),
            CdfFault::Tag { at } => write!(f, "Tag {at}"),
            CdfFault::Negative { at } => write!(f, "Negative {at}"),
            CdfFault::NameText { at } => write!(f, "NameText {at}"),
            CdfFault::NameLength { at } => write!(f, "NameLength {at}"),
            CdfFault::DimNumber { at } => write!(f, "DimNumber {at}"),
            CdfFault::TwoRecordDims => f.write_str("TwoRecordDims"),
            CdfFault::ValueType { at } => write!(f, "ValueType {at}"),
            CdfFault::RecordDimNotFirst { var } => write!(f, "RecordDimNotFirst {var}"),
            CdfFault::Overflow { var } => write!(f, "Overflow {var}"),
            CdfFault::DataShort { var } => write!(f, "DataShort {var}"),
            CdfFault::OutOfMemory => f.write_str("OutOfMemory"),
        }
    }
}

/// The name and the fields of a fault of a stack.
#[derive(Clone, Copy)]
struct StackWords(StackFault);

impl fmt::Display for StackWords {
    ghost output = { λ w. Some (stack_fault_words w.0) };

    fn fmt<W: fmt::Write>(&self, f: &mut fmt::Formatter<W>) -> fmt::Result {
        match self.0 {
            StackFault::Cdf(fault) => {
                let words = CdfWords(fault);
                write!(f, "Cdf {words}")
            }
            StackFault::NoArrayData => f.write_str("NoArrayData"),
            StackFault::SampleType(number) => write!(f, "SampleType {number}"),
            StackFault::Rank(rank) => write!(f, "Rank {rank}"),
            StackFault::TooManyFrames(count) => write!(f, "TooManyFrames {count}"),
            StackFault::TooManySamples(count) => write!(f, "TooManySamples {count}"),
            StackFault::FrameCount { var } => write!(f, "FrameCount {var}"),
            StackFault::AttrShape { var } => write!(f, "AttrShape {var}"),
            StackFault::OutOfMemory => f.write_str("OutOfMemory"),
        }
    }
}

/// The name and the fields of a fault of a trigger.
#[derive(Clone, Copy)]
struct CalcWords(CalcFault);

impl fmt::Display for CalcWords {
    ghost output = { λ w. Some (calc_fault_words w.0) };

    fn fmt<W: fmt::Write>(&self, f: &mut fmt::Formatter<W>) -> fmt::Result {
        match self.0 {
            CalcFault::OutOfMemory => f.write_str("OutOfMemory"),
            CalcFault::TooLong => f.write_str("TooLong"),
            CalcFault::Unexpected { at } => write!(f, "Unexpected {at}"),
            CalcFault::TooDeep => f.write_str("TooDeep"),
        }
    }
}

/// The name and the fields of a fault of a graph's text.
#[derive(Clone, Copy)]
struct GraphWords<'a>(&'a GraphFault);

impl fmt::Display for GraphWords<'_> {
    ghost output = { λ w. Some (graph_fault_words w.0.now) };

    fn fmt<W: fmt::Write>(&self, f: &mut fmt::Formatter<W>) -> fmt::Result {
        match self.0 {
            GraphFault::Text => f.write_str("Text"),
            GraphFault::UnknownKey { key } => write!(f, "UnknownKey {}", key.text()),
            GraphFault::KeyType { key } => write!(f, "KeyType {}", key.text()),
            GraphFault::Range { key, value } => write!(f, "Range {} {value}", key.text()),
            GraphFault::Missing { key } => write!(f, "Missing {}", key.text()),
            GraphFault::UnknownKind { node } => write!(f, "UnknownKind {node}"),
            GraphFault::Threads(node) => write!(f, "Threads {node}"),
            GraphFault::Calc(fault) => {
                let words = CalcWords(*fault);
                write!(f, "Calc {words}")
            }
            GraphFault::DoubleName { node } => write!(f, "DoubleName {node}"),
            GraphFault::UnknownInput { node } => write!(f, "UnknownInput {node}"),
            GraphFault::Cycle { node } => write!(f, "Cycle {node}"),
            GraphFault::OutOfMemory => f.write_str("OutOfMemory"),
        }
    }
}

/// The name and the fields of a limit that is passed.
#[derive(Clone, Copy)]
struct LimitWords(LimitFault);

impl fmt::Display for LimitWords {
    ghost output = { λ w. Some (limit_fault_words w.0) };

    fn fmt<W: fmt::Write>(&self, f: &mut fmt::Formatter<W>) -> fmt::Result {
        match self.0 {
            LimitFault::GraphBytes { bytes } => write!(f, "GraphBytes {bytes}"),
            LimitFault::StackFile { bytes } => write!(f, "StackFile {bytes}"),
            LimitFault::GenBytes { bytes } => write!(f, "GenBytes {bytes}"),
            LimitFault::Load { arrivals } => write!(f, "Load {arrivals}"),
            LimitFault::Kept { numbers } => write!(f, "Kept {numbers}"),
            LimitFault::FileTooLarge { node, bytes } => write!(f, "FileTooLarge {node} {bytes}"),
        }
    }
}

impl fmt::Display for Status {
    ghost output = { λ s. Some (status_words s) };

    fn fmt<W: fmt::Write>(&self, f: &mut fmt::Formatter<W>) -> fmt::Result {
        match self {
            Status::Done => f.write_str("status 0 Done"),
            Status::Usage => f.write_str("status 1 Usage"),
            Status::GraphText => f.write_str("status 2 GraphText"),
            Status::GraphRule(fault) => {
                let words = GraphWords(fault);
                write!(f, "status 3 GraphRule {words}")
            }
            Status::StackBytes(fault) => {
                let words = StackWords(*fault);
                write!(f, "status 4 StackBytes {words}")
            }
            Status::Limit(fault) => {
                let words = LimitWords(*fault);
                write!(f, "status 5 Limit {words}")
            }
            Status::ReadFault => f.write_str("status 6 ReadFault"),
            Status::ShelfFault => f.write_str("status 7 ShelfFault"),
            Status::OutFault => f.write_str("status 8 OutFault"),
            Status::OutOfMemory => f.write_str("status 9 OutOfMemory"),
            Status::Sizes => f.write_str("status 10 Sizes"),
        }
    }
}

impl From<GraphFault> for Status {
    ghost use Rattle.std.specs.Prelude.{◌≡◌};
    ghost use Rattle.tool_commands.specs.Stages.{graph_fault_status};

    ghost from_gives = { λ fault s. s ≡ graph_fault_status fault };

    fn from(fault: GraphFault) -> Self {
        match fault {
            GraphFault::OutOfMemory => Status::OutOfMemory,
            GraphFault::Text => Status::GraphText,
            fault => Status::GraphRule(fault),
        }
    }
}

impl From<StackFault> for Status {
    ghost use Rattle.std.specs.Prelude.{◌≡◌};
    ghost use Rattle.tool_commands.specs.Stages.{fault_status};

    ghost from_gives = { λ fault s. s ≡ fault_status fault };

    fn from(fault: StackFault) -> Self {
        match fault {
            StackFault::OutOfMemory => Status::OutOfMemory,
            fault => Status::StackBytes(fault),
        }
    }
}

impl From<LimitFault> for Status {
    ghost use Rattle.std.specs.Prelude.{◌≡◌};
    ghost use Rattle.tool_commands.specs.declared.status.Status.TheVariants as statuses;

    ghost from_gives = { λ fault s. s ≡ statuses.Limit fault };

    fn from(fault: LimitFault) -> Self {
        Status::Limit(fault)
    }
}

impl From<SaveFault> for Status {
    ghost use Rattle.std.specs.Prelude.{◌≡◌};
    ghost use Rattle.tool_commands.specs.Stages.{save_fault_status};

    ghost from_gives = { λ fault s. s ≡ save_fault_status fault };

    fn from(fault: SaveFault) -> Self {
        match fault {
            SaveFault::Failed => Status::ShelfFault,
            SaveFault::OutOfMemory => Status::OutOfMemory,
        }
    }
}

impl From<OutOfMemory> for Status {
    ghost use Rattle.std.specs.Prelude.{◌≡◌};
    ghost use Rattle.tool_commands.specs.declared.status.Status.TheVariants as statuses;

    ghost from_gives = { λ _ s. s ≡ statuses.OutOfMemory };

    fn from(_: OutOfMemory) -> Self {
        Status::OutOfMemory
    }
}

impl From<AllocError> for Status {
    ghost use Rattle.std.specs.Prelude.{◌≡◌};
    ghost use Rattle.tool_commands.specs.declared.status.Status.TheVariants as statuses;

    ghost from_gives = { λ _ s. s ≡ statuses.OutOfMemory };

    fn from(_: AllocError) -> Self {
        Status::OutOfMemory
    }
}

/// What a command that answered so ends with.
pub fn status_of(answer: Result<(), Status>) -> Status
    ensures { result ≡ status_of answer }
{
    match answer {
        Ok(()) => Status::Done,
        Err(status) => status,
    }
}

/// A text in one line: a backslash is doubled, and a control character stands as its number.
fn one_line(alloc: Global, text: &str) -> Result<String, AllocError>
    ensures text { IfOk result (λ t. string_bytes t ≡ one_line text.now) }
    ensures line { IfOk result (λ t. All (λ b. b ≢ 10) (string_bytes t)) }
{
    let mut line = String::new(alloc);
    for character in text.chars() {
        push_shown(alloc, &mut line, character)?;
    }
    Ok(line)
}

/// Adds a character to a line.
fn push_shown(alloc: Global, line: &mut String, character: char) -> Result<(), AllocError>
    ensures { OnOk result (string_bytes line.new ≡ string_bytes line.old ++ shown_char character) }
{
    if character == '\\' {
        line.push_str("\\\\")?;
    } else if character.is_ascii_control() {
        let code = format!(in alloc; "\\u{{{:x}}}", character as u32)?;
        line.push_str(&code)?;
    } else {
        line.push(character)?;
    }
    Ok(())
}

/// The text of a status in one line: `status`, its number, its name, and what it carries.
///
/// # Errors
///
/// `OutOfMemory` where memory is wanting.
pub fn status_text(alloc: Global, status: &Status) -> Result<String, OutOfMemory>
    ensures text { IfOk result (λ t. string_bytes t ≡ status_line status.now) }
    ensures line { IfOk result (λ t. All (λ b. b ≢ 10) (string_bytes t)) }
{
    let words = format!(in alloc; "{status}")?;
    Ok(one_line(alloc, &words)?)
}
