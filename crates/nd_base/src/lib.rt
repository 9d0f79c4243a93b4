//! The plain data of the frame pipeline: bytes, names, arrays, graphs, plans and measures, and the
//! traits of a run and of its frames.
//!
//! Contracts of all crates see these as values: `Name` and `Bytes` as a list of bytes, `Seq<T>` as a list
//! of `T`, and an array as the record `Array` of `specs/Array.antt`, whose samples are whole numbers.
#![tactic(auto)]

mod array;
mod attribute;
mod attrs;
mod bytes;
mod calc;
mod form;
mod frame;
mod graph;
mod laws;
mod measure;
mod memory;
mod name;
mod plan;
mod run;
mod sample;
mod seq;
mod stack;
#[cfg(test)]
mod tests;

pub use array::{
    Dim, Head, MOST_SAMPLES, NdArray, SampleType, ShapeFault, are_array_dims, frame_bytes,
    same_head,
};
pub use attribute::{Attr, AttrColumn, AttrKind, AttrValue, Extra, FileShape};
pub use attrs::{Attrs, Names};
pub use bytes::Bytes;
pub use calc::{Calc, Term};
pub use form::{Form, LONGEST_CLASSIC, LONGEST_WIDE};
pub use frame::{FrameName, Held, Named};
pub use graph::{
    CircularRule, FileRule, Graph, Kind, Mode, NodeRule, RoiRule, Sign, StatsRule, rule_at,
};
pub use laws::places_have_indices;
pub use measure::Measure;
pub use memory::OutOfMemory;
pub use name::Name;
pub use plan::{Maker, Plan};
pub use run::Run;
pub use sample::{number_at, pair_at, word_at};
pub use seq::Seq;
pub use stack::Stack;
