//! Headers of netCDF classic files, spelled word by word.

use std::alloc::{AllocError, Global};

const DIMENSIONS: u32 = 10;

const VARIABLES: u32 = 11;

const ATTRIBUTES: u32 = 12;

/// How many bytes a header has that tells of no dimension and no variable.
const EMPTY: u32 = 56;

/// How many bytes a dimension with a name of one letter has.
const DIMENSION: u32 = 12;

/// How many bytes a variable has beside its name and the numbers of its dimensions.
const VARIABLE: u32 = 28;

/// How many bytes a global attribute has beside its name and its text.
const EXTRA: u32 = 12;

/// A value type of a file.
#[derive(Clone, Copy, PartialEq, Eq)]
pub enum ValueType {
    Byte,
    Char,
    Short,
    Int,
    Float,
    Double,
}

impl ValueType {
    /// The type's number in a file.
    fn number(self) -> u32 {
        match self {
            ValueType::Byte => 1,
            ValueType::Char => 2,
            ValueType::Short => 3,
            ValueType::Int => 4,
            ValueType::Float => 5,
            ValueType::Double => 6,
        }
    }

    /// How many bytes a value has.
    pub fn width(self) -> u32 {
        match self {
            ValueType::Byte | ValueType::Char => 1,
            ValueType::Short => 2,
            ValueType::Int | ValueType::Float => 4,
            ValueType::Double => 8,
        }
    }
}

/// A variable over the record dimension, number 0, and others.
#[derive(Drop)]
struct Variable {
    name: String,
    /// The numbers of the other dimensions, the slowest first.
    dims: Vec<u32>,
    kind: ValueType,
    /// How many values it has in a record.
    count: u32,
}

impl Variable {
    /// How many bytes it has in the header.
    fn spelled_size(&self) -> u32 {
        let name = padded(self.name.len().min(1_024) as u32);
        let words = self.dims.len().min(1_024) as u32;
        VARIABLE
            .saturating_add(name)
            .saturating_add(4 * (words + 1))
    }

    /// How many bytes it has in a record.
    fn size(&self) -> u32 {
        self.count.saturating_mul(self.kind.width())
    }
}

/// A number of bytes raised to whole words.
pub fn padded(size: u32) -> u32 {
    (size.saturating_add(3) / 4).saturating_mul(4)
}

/// A global attribute that is a text.
#[derive(Drop)]
struct Extra {
    name: String,
    text: String,
}

impl Extra {
    /// How many bytes it has in the header.
    fn spelled_size(&self) -> u32 {
        let name = padded(self.name.len().min(1_024) as u32);
        let text = padded(self.text.len().min(1_024) as u32);
        EXTRA.saturating_add(name).saturating_add(text)
    }
}

/// Fills bytes up to whole words.
pub fn fill_up(bytes: &mut Vec<u8>) -> Result<(), AllocError> {
    let words = bytes.len().saturating_add(3) / 4;
    bytes.resize(words.saturating_mul(4), 0)
}

/// What a header tells.
#[derive(Drop)]
pub struct Header {
    alloc: Global,
    /// How many records there are.
    records: u32,
    /// The lengths of the dimensions after the record dimension.
    lengths: Vec<u32>,
    /// The global attribute `dataType`.
    data_type: u32,
    extras: Vec<Extra>,
    variables: Vec<Variable>,
}

/// A header as far as it is spelled.
#[derive(Drop)]
struct Spelling {
    bytes: Vec<u8>,
}

impl Spelling {
    /// Adds a word.
    fn word(&mut self, word: u32) -> Result<(), AllocError> {
        self.bytes.extend_from_slice(&word.to_be_bytes())
    }

    /// Adds a text: its length, and its bytes up to whole words.
    fn text(&mut self, text: &str) -> Result<(), AllocError> {
        let length = text.len().min(1_024) as u32;
        self.word(length)?;
        self.bytes.extend_from_slice(text.as_bytes())?;
        fill_up(&mut self.bytes)
    }

    /// Adds what a list begins with: its tag, and how many items it has.
    fn list(&mut self, tag: u32, count: usize) -> Result<(), AllocError> {
        self.word(tag)?;
        self.word(count.min(65_536) as u32)
    }

    /// Adds a dimension of this length.
    fn dimension(&mut self, name: &str, length: u32) -> Result<(), AllocError> {
        self.text(name)?;
        self.word(length)
    }

    /// Adds the list of the dimensions: the record dimension, and those of these lengths.
    fn dimensions(&mut self, lengths: &[u32]) -> Result<(), AllocError> {
        self.list(DIMENSIONS, lengths.len().saturating_add(1))?;
        self.dimension("n", 0)?;
        for length in lengths {
            self.dimension("d", *length)?;
        }
        Ok(())
    }

    /// Adds the list of the global attributes: `dataType`, and those that are texts.
    fn attributes(&mut self, data_type: u32, extras: &[Extra]) -> Result<(), AllocError> {
        self.list(ATTRIBUTES, extras.len().saturating_add(1))?;
        self.text("dataType")?;
        self.word(ValueType::Int.number())?;
        self.word(1)?;
        self.word(data_type)?;
        for extra in extras {
            self.text(extra.name.as_str())?;
            self.word(ValueType::Char.number())?;
            self.text(extra.text.as_str())?;
        }
        Ok(())
    }

    /// Adds a variable whose values begin at this place of the file.
    fn variable(&mut self, variable: &Variable, begin: u32) -> Result<(), AllocError> {
        self.text(variable.name.as_str())?;
        self.word(variable.dims.len().min(1_024) as u32 + 1)?;
        self.word(0)?;
        for dim in &variable.dims {
            self.word(*dim)?;
        }
        self.list(0, 0)?;
        self.word(variable.kind.number())?;
        self.word(padded(variable.size()))?;
        self.word(begin)
    }

    /// Adds the list of the variables, whose values in the first record begin at this place and follow each other.
    fn variables(&mut self, variables: &[Variable], first: u32) -> Result<(), AllocError> {
        self.list(VARIABLES, variables.len())?;
        let mut begin = first;
        for variable in variables {
            self.variable(variable, begin)?;
            begin = begin.saturating_add(padded(variable.size()));
        }
        Ok(())
    }
}

impl Header {
    /// A header without variables.
    pub fn new(alloc: Global, records: u32, data_type: u32) -> Header {
        Header {
            alloc,
            records,
            lengths: Vec::new(alloc),
            data_type,
            extras: Vec::new(alloc),
            variables: Vec::new(alloc),
        }
    }

    /// Adds a global attribute that is a text.
    pub fn add_extra(&mut self, name: &str, text: &str) -> Result<(), AllocError> {
        self.extras.push(Extra {
            name: String::from_str(self.alloc, name)?,
            text: String::from_str(self.alloc, text)?,
        })?;
        Ok(())
    }

    /// Adds a variable over the records and dimensions of its own with these lengths, the slowest first.
    pub fn add_variable(
        &mut self,
        name: &str,
        kind: ValueType,
        lengths: &[u32],
    ) -> Result<(), AllocError> {
        let mut dims = Vec::new(self.alloc);
        let mut count = 1u32;
        for length in lengths {
            self.lengths.push(*length)?;
            dims.push(self.lengths.len().min(65_536) as u32)?;
            count = count.saturating_mul(*length);
        }
        self.variables.push(Variable {
            name: String::from_str(self.alloc, name)?,
            dims,
            kind,
            count,
        })?;
        Ok(())
    }

    /// How many bytes the header has.
    fn length(&self) -> u32 {
        let dims = self.lengths.len().min(65_536) as u32 + 1;
        let extras = self.extras.iter().fold(
            EMPTY,
            |sum, extra| sum.saturating_add(extra.spelled_size()),
        );
        let variables = self.variables.iter().fold(extras, |sum, variable| {
            sum.saturating_add(variable.spelled_size())
        });
        variables.saturating_add(dims.saturating_mul(DIMENSION))
    }

    /// The header's bytes. The values stand right after it.
    pub fn bytes(&self) -> Result<Vec<u8>, AllocError> {
        let mut spelling = Spelling {
            bytes: Vec::from_slice(self.alloc, b"CDF\x01")?,
        };
        spelling.word(self.records)?;
        spelling.dimensions(&self.lengths)?;
        spelling.attributes(self.data_type, &self.extras)?;
        spelling.variables(&self.variables, self.length())?;
        Ok(spelling.bytes)
    }
}
