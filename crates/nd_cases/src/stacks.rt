//! Stacks that a line describes.

use crate::layout::{Header, ValueType, fill_up, padded};
use crate::line::short_number;
use anyhow::{Context, Result, bail};
use std::alloc::{AllocError, Global};

/// What the samples are.
#[derive(Clone, Copy, PartialEq, Eq)]
enum Fill {
    /// 1, 2, 3 and so on, through all frames, modulo the type.
    Counted,
    /// All samples of a frame are its number from 1, modulo the type.
    Same,
}

/// The length of a block of pieces.
const BLOCK: u32 = 512;

/// Bytes so many times over.
fn repeated(alloc: Global, bytes: &[u8], count: u32) -> Result<Vec<u8>, AllocError> {
    let mut all = Vec::new(alloc);
    for _ in 0..count {
        all.extend_from_slice(bytes)?;
    }
    Ok(all)
}

/// Adds a piece so many times, block by block since there may be many.
fn add_again(
    alloc: Global,
    bytes: &mut Vec<u8>,
    piece: &[u8],
    count: u32,
) -> Result<(), AllocError> {
    let block = repeated(alloc, piece, BLOCK)?;
    bytes.extend_from_slice(&repeated(alloc, &block, count / BLOCK)?)?;
    bytes.extend_from_slice(&repeated(alloc, piece, count % BLOCK)?)
}

/// An attribute of the frames, which is 0 or an empty text.
#[derive(Drop)]
struct Attribute {
    name: String,
    kind: ValueType,
    /// How many values it has: 1, or what a text has room for.
    count: u32,
}

/// A stack's file, as a line `stack NAME KEY=VALUE ..` describes it. The keys are
///
/// - `frames=3`, `sizes=640,480` (dimension 0 first) and `type=UInt8`, where these are the values without the key but for the sizes,
///   which are 2,2;
/// - `fill=same`: all samples of frame k are k; else they are counted through;
/// - `ids=5,6,7`: the ids of the frames; else the file has none;
/// - `whole=NAME`, `bits32=NAME`, `bits64=NAME`: an attribute that is 0, and `text=NAME,LENGTH` an empty one;
/// - `extra=NAME,TEXT`: a global attribute that is a text;
/// - `texts=COUNT,LENGTH`: so many attributes that are texts, of which the first has room for so many bytes;
/// - `zeros=COUNT`: so many zero bytes in place of all values, which is faster where they are many.
///
/// The values stand in records after the header, as the netCDF library lays them out.
#[derive(Drop)]
pub struct StackFile<'a> {
    name: &'a str,
    frames: u32,
    sizes: Vec<u32>,
    data_type: u32,
    sample: ValueType,
    fill: Fill,
    ids: Vec<i32>,
    attributes: Vec<Attribute>,
    extras: Vec<(&'a str, &'a str)>,
    zeros: Option<u32>,
}

/// Numbers between commas.
fn numbers(alloc: Global, text: &str) -> Result<Vec<u32>> {
    let mut list = Vec::new(alloc);
    for word in text.split(',') {
        list.push(short_number(word)?)?;
    }
    Ok(list)
}

/// Ids between commas.
fn ids(alloc: Global, text: &str) -> Result<Vec<i32>> {
    let mut list = Vec::new(alloc);
    for word in text.split(',') {
        list.push(word.parse::<i32>().context("an id is no number")?)?;
    }
    Ok(list)
}

/// Two words with a comma between them.
fn pair(text: &str) -> Result<(&str, &str)> {
    text.split_once(',').context("a comma is missing")
}

/// The number of a sample type, and what its samples are in a file.
fn sample_type(word: &str) -> Result<(u32, ValueType)> {
    match word {
        "Int8" => Ok((0, ValueType::Byte)),
        "UInt8" => Ok((1, ValueType::Byte)),
        "Int16" => Ok((2, ValueType::Short)),
        "UInt16" => Ok((3, ValueType::Short)),
        "Int32" => Ok((4, ValueType::Int)),
        "UInt32" => Ok((5, ValueType::Int)),
        _ => bail!("{word} is no sample type"),
    }
}

impl<'a> StackFile<'a> {
    /// The stack that the rest of a line describes.
    pub fn read(alloc: Global, rest: &'a str) -> Result<StackFile<'a>> {
        let mut words = rest.split_whitespace();
        let mut stack = StackFile {
            name: words.next().context("a stack has a name")?,
            frames: 1,
            sizes: vec![in alloc; 2, 2]?,
            data_type: 1,
            sample: ValueType::Byte,
            fill: Fill::Counted,
            ids: Vec::new(alloc),
            attributes: Vec::new(alloc),
            extras: Vec::new(alloc),
            zeros: None,
        };
        for word in words {
            let (key, value) = word.split_once('=').context("a key has a value")?;
            stack.set(alloc, key, value)?;
        }
        Ok(stack)
    }

    /// Takes up what a key says.
    fn set(&mut self, alloc: Global, key: &str, value: &'a str) -> Result<()> {
        match key {
            "frames" => self.frames = short_number(value)?,
            "sizes" => self.sizes = numbers(alloc, value)?,
            "type" => (self.data_type, self.sample) = sample_type(value)?,
            "fill" if value == "same" => self.fill = Fill::Same,
            "zeros" => self.zeros = Some(short_number(value)?),
            "ids" => self.ids = ids(alloc, value)?,
            "whole" => self.add(alloc, value, ValueType::Int, 1)?,
            "bits32" => self.add(alloc, value, ValueType::Float, 1)?,
            "bits64" => self.add(alloc, value, ValueType::Double, 1)?,
            "extra" => self.extras.push(pair(value)?)?,
            "text" => {
                let (name, length) = pair(value)?;
                self.add(alloc, name, ValueType::Char, short_number(length)?)?;
            }
            "texts" => {
                let (count, length) = pair(value)?;
                self.add_texts(alloc, short_number(count)?, short_number(length)?)?;
            }
            _ => bail!("{key} with {value} says nothing of a stack"),
        }
        Ok(())
    }

    /// Adds an attribute of this name.
    fn add(
        &mut self,
        alloc: Global,
        name: &str,
        kind: ValueType,
        count: u32,
    ) -> Result<(), AllocError> {
        let name = format!(in alloc; "Attr_{name}")?;
        self.attributes.push(Attribute { name, kind, count })?;
        Ok(())
    }

    /// Adds so many attributes that are texts, of which the first has room for so many bytes, and each other for one.
    fn add_texts(&mut self, alloc: Global, count: u32, length: u32) -> Result<(), AllocError> {
        for index in 0..count {
            let name = format!(in alloc; "{index}")?;
            let room = if index == 0 { length } else { 1 };
            self.add(alloc, name.as_str(), ValueType::Char, room)?;
        }
        Ok(())
    }

    /// The file's name.
    pub fn name(&self) -> &'a str {
        self.name
    }

    /// How many samples a frame has.
    fn samples(&self) -> u32 {
        self.sizes
            .iter()
            .fold(1u32, |product, size| product.saturating_mul(*size))
    }

    /// The file's header.
    fn header(&self, alloc: Global) -> Result<Header, AllocError> {
        let mut header = Header::new(alloc, self.frames, self.data_type);
        for (name, text) in &self.extras {
            header.add_extra(name, text)?;
        }
        if !self.ids.is_empty() {
            header.add_variable("uniqueId", ValueType::Int, &[])?;
        }
        let lengths: Vec<u32> = self.sizes.iter().rev().copied().collect(alloc)?;
        header.add_variable("array_data", self.sample, &lengths)?;
        self.add_attributes(&mut header)?;
        Ok(header)
    }

    /// Adds a variable for each attribute.
    fn add_attributes(&self, header: &mut Header) -> Result<(), AllocError> {
        for attribute in &self.attributes {
            let name = attribute.name.as_str();
            match attribute.kind {
                ValueType::Char => header.add_variable(name, ValueType::Char, &[attribute.count])?,
                kind => header.add_variable(name, kind, &[])?,
            }
        }
        Ok(())
    }

    /// How many bytes the attributes of a frame have.
    fn attributes_size(&self) -> u32 {
        self.attributes
            .iter()
            .map(|attribute| padded(attribute.count.saturating_mul(attribute.kind.width())))
            .fold(0u32, |sum, size| sum.saturating_add(size))
    }

    /// The last bytes of a number, as many as a sample has.
    fn add_sample(&self, bytes: &mut Vec<u8>, number: u32) -> Result<(), AllocError> {
        let width = self.sample.width() as usize;
        let number = number.to_be_bytes();
        for byte in number.iter().skip(4usize.saturating_sub(width)) {
            bytes.push(*byte)?;
        }
        Ok(())
    }

    /// The samples of a frame, counted from a number on.
    fn add_counted(&self, bytes: &mut Vec<u8>, first: u32) -> Result<(), AllocError> {
        for index in 0..self.samples() {
            self.add_sample(bytes, first.wrapping_add(index))?;
        }
        Ok(())
    }

    /// The samples of a frame, all of them one number.
    fn add_same(&self, alloc: Global, bytes: &mut Vec<u8>, number: u32) -> Result<(), AllocError> {
        let mut sample = Vec::new(alloc);
        self.add_sample(&mut sample, number)?;
        add_again(alloc, bytes, &sample, self.samples())
    }

    /// The values of a frame. Those of each variable are filled up to whole words where there are several variables.
    fn add_frame(&self, alloc: Global, bytes: &mut Vec<u8>, index: u32) -> Result<(), AllocError> {
        if let Some(id) = self.ids.get(index as usize) {
            bytes.extend_from_slice(&id.to_be_bytes())?;
        }
        match self.fill {
            Fill::Counted => {
                let before = index.wrapping_mul(self.samples());
                self.add_counted(bytes, before.wrapping_add(1))?;
            }
            Fill::Same => self.add_same(alloc, bytes, index.wrapping_add(1))?,
        }
        if !self.ids.is_empty() || !self.attributes.is_empty() {
            fill_up(bytes)?;
        }
        add_again(alloc, bytes, &[0], self.attributes_size())
    }

    /// The values of all frames.
    fn add_frames(&self, alloc: Global, bytes: &mut Vec<u8>) -> Result<(), AllocError> {
        for index in 0..self.frames {
            self.add_frame(alloc, bytes, index)?;
        }
        Ok(())
    }

    /// The file's bytes.
    pub fn bytes(&self, alloc: Global) -> Result<Vec<u8>, AllocError> {
        let mut bytes = self.header(alloc)?.bytes()?;
        match self.zeros {
            Some(count) => add_again(alloc, &mut bytes, &[0], count)?,
            None => self.add_frames(alloc, &mut bytes)?,
        }
        Ok(bytes)
    }
}
