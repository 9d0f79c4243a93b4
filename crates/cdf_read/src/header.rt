//! Reading a whole header.

ghost use Rattle.std.specs.Prelude.{◌≡◌, ◌≢◌, ◌≤◌, length, List, ℕ, position, ◌⊎◌, All, IfOk, IfErr};
ghost use Rattle.std.specs.Str.{bytes_eq};
ghost use Rattle.cdf_read.specs.declared.fault.CdfFault.{CdfFault};
ghost use Rattle.cdf_read.specs.declared.head.Header.{Header};
ghost use Rattle.cdf_read.specs.FirstFault.{FirstFault};
ghost use Rattle.cdf_read.specs.Grammar.{Reads};
ghost use Rattle.cdf_read.specs.HeaderReading.{Gives, Faults, header_of};
ghost use Rattle.cdf_read.specs.Places.{var_size, header_with};

use crate::parts::{read_attrs, read_dims, read_vars};
use crate::place::{count_of_records, short_var};
use crate::size::size_of_record;
use crate::word::{read_form, read_numrecs};
use crate::{CdfFault, HeadAttr, HeadDim, HeadVar, Header};
use nd_base::Seq;
use std::alloc::Global;

/// Reads the header of a file from all of the file's bytes. The header is read once, and no value of a
/// variable is copied. Memory is taken for what was read, never for what a count promises.
///
/// # Errors
///
/// The first fault from the left, which no other answer replaces but want of memory.
pub fn read_header(alloc: Global, bytes: &[u8]) -> Result<Header, CdfFault>
    ensures ok { IfOk result (Reads bytes.now) }
    ensures fault { IfErr result (λ fault. fault ≢ CdfFault.OutOfMemory → Faults bytes.now fault) }
    ensures read { Gives (λ header. header) result (header_of bytes.now) }
{
    read_parts(alloc, bytes)
}

#[tactic(auto, unfolding(crate::specs::HeaderReading::header_of))]
fn read_parts(alloc: Global, bytes: &[u8]) -> Result<Header, CdfFault>
    ensures { Gives (λ header. header) result (header_of bytes.now) }
{
    let total = bytes.len();
    let (form, rest) = read_form(bytes)?;
    let (numrecs, rest) = read_numrecs(total, rest)?;
    let (dims, rest) = read_dims(alloc, total, rest)?;
    let (gatts, rest) = read_attrs(alloc, total, rest)?;
    let (vars, _) = read_vars(alloc, form, total, &dims, rest)?;
    let header = put_together(total, numrecs, dims, gatts, vars);
    match short_var(total, &header) {
        Some(var) => Err(CdfFault::DataShort { var }),
        None => Ok(header),
    }
}

/// The header of these parts, in a file of so many bytes.
fn put_together(
    total: usize,
    numrecs: u32,
    dims: Vec<HeadDim>,
    gatts: Vec<HeadAttr>,
    vars: Vec<HeadVar>,
) -> Header
    requires few { length vars.items ≤ 2147483647 }
    requires small { All (λ v. var_size dims.items v ≤ 4294967296) vars.items }
    ensures { result ≡ header_with total numrecs dims.items gatts.items vars.items }
{
    let recsize = size_of_record(&dims, &vars);
    let records = count_of_records(total as u64, numrecs, recsize, &dims, &vars);
    Header {
        records,
        recsize,
        dims: Seq::new(dims),
        gatts: Seq::new(gatts),
        vars: Seq::new(vars),
    }
}

/// Each list of bytes is the beginning of a file with one header, or it has one first fault, and never both.
pub fn header_or_fault()
    ensures one_of_both { (bytes : List ℕ) → ((header : Header) × Reads bytes header) ⊎ ((fault : CdfFault) × Faults bytes fault) }
    ensures not_both { (bytes : List ℕ) (header : Header) (fault : CdfFault) → Reads bytes header → ¬ Faults bytes fault }
    ensures one_header { (bytes : List ℕ) (one other : Header) → Reads bytes one → Reads bytes other → one ≡ other }
    ensures one_fault { (bytes : List ℕ) (one other : CdfFault) → Faults bytes one → Faults bytes other → one ≡ other }
    ensures of_the_file { (bytes : List ℕ) → ¬ Faults bytes CdfFault.OutOfMemory }
{}

/// What the first fault of a file is: the bytes before some field spell the fields before it, and that field
/// is at fault; or they spell a header, and this variable is the first with a value past the end of the file.
pub fn faults_are_first()
    ensures { (bytes : List ℕ) (fault : CdfFault) → (Faults bytes fault → FirstFault bytes fault) × (FirstFault bytes fault → Faults bytes fault) }
{}

impl Header {
    /// The number of the first variable of this name.
    pub fn var(&self, name: &str) -> Option<usize>
        ensures { result ≡ position (λ v. bytes_eq v.name name.now) self.now.vars }
    {
        self.vars
            .as_slice()
            .iter()
            .position(|var| var.name.text() == name)
    }
}
