//! Reading a whole file of a library.

ghost use Rattle.std.specs.Prelude.{◌≡◌, ◌<◌, ◌≤◌, [], ℕ, List, length, take, IfOk, IfErr, OnOk};
ghost use Rattle.edge_traits.specs.Faults.{ReadCall, Rose};
ghost use Rattle.edge_traits.specs.Files.{IsTold, HasFile};
ghost use Rattle.tool_commands.specs.Reads.{ReadFaultCause, IsReadStop};
ghost use Rattle.tool_commands.specs.Unread.{NoneFailed, FailedAt, IfFailed};

use edge_traits::{Failed, Library};
use std::alloc::{AllocError, Global};

/// How many bytes are read at a time, at most.
const PIECE: usize = 262_144;

/// Why a file wasn't read.
#[derive(Clone, Copy, Debug, PartialEq, Eq)]
pub enum ReadRefusal {
    /// It has more bytes than the limit; nothing was read.
    TooLong { bytes: u64 },
    /// The library failed.
    Failed,
    OutOfMemory,
}

impl From<AllocError> for ReadRefusal {
    ghost use Rattle.tool_commands.specs.declared.reading.ReadRefusal.TheVariants as refusals;
    ghost use Rattle.std.specs.Prelude.{◌≡◌};

    ghost from_gives = { λ _ e. e ≡ refusals.OutOfMemory };

    fn from(_: AllocError) -> Self {
        ReadRefusal::OutOfMemory
    }
}

impl From<Failed> for ReadRefusal {
    ghost use Rattle.tool_commands.specs.declared.reading.ReadRefusal.TheVariants as refusals;
    ghost use Rattle.std.specs.Prelude.{◌≡◌};

    ghost from_gives = { λ _ e. e ≡ refusals.Failed };

    fn from(_: Failed) -> Self {
        ReadRefusal::Failed
    }
}

/// Reads all of a file that has at most `limit` bytes. Room for them is reserved at once, and each byte of it is written once.
///
/// # Errors
///
/// `TooLong` with the file's size where that is past the limit, and then nothing was read; `Failed` where the library failed, to tell the size or to
/// give bytes of a file within the limit, and its count of faults rose; and `OutOfMemory`.
pub fn read_file<L: Library>(
    alloc: Global,
    library: &mut L,
    name: &str,
    limit: u64,
) -> Result<Vec<u8>, ReadRefusal>
    ensures bytes { IfOk result (λ v. HasFile (L.holds library.old) name.now v.items) }
    ensures within { IfOk result (λ v. length v.items ≤ limit) }
    ensures refused { IfErr result (λ e. ReadFaultCause e (L.holds library.old) name.now limit (L.faults library.old) (L.faults library.new)) }
    ensures same { OnOk result (L.faults library.new ≡ L.faults library.old) }
    ensures none_failed { OnOk result (NoneFailed (L.faults_at library.old) (L.faults_at library.new)) }
    ensures failed { IfErr result (λ e. IfFailed e (FailedAt (L.holds library.old) limit (L.faults_at library.old) (L.faults_at library.new) name.now)) }
    ensures files { L.holds library.new ≡ L.holds library.old }
{
    let size = library.size(name)?;
    if size > limit {
        return Err(ReadRefusal::TooLong { bytes: size });
    }
    let mut bytes = Vec::with_capacity(alloc, size as usize)?;
    let mut piece = vec![in alloc; 0u8; PIECE]?;
    read_pieces(library, name, size as usize, &mut piece, &mut bytes)?;
    Ok(bytes)
}

/// Reads a file from its start on, piece by piece, and appends each to the bytes, of which there are none yet, until there are
/// `size` of them or the file ends.
fn read_pieces<L: Library>(
    library: &mut L,
    name: &str,
    size: usize,
    piece: &mut [u8],
    bytes: &mut Vec<u8>,
) -> Result<(), ReadRefusal>
    requires empty { bytes.old.items ≡ [] }
    requires room { 0 < length piece.old }
    ensures within { OnOk result (length bytes.new.items ≤ size) }
    ensures bytes { OnOk result ((file : List ℕ) → IsTold (L.holds library.old) name.now file
        → bytes.new.items ≡ take (length bytes.new.items) file) }
    ensures end { OnOk result ((file : List ℕ) → IsTold (L.holds library.old) name.now file → length bytes.new.items < size
        → length file ≤ length bytes.new.items) }
    ensures stops { IfErr result (λ e. IsReadStop e (L.faults library.old) (L.faults library.new)) }
    ensures same { OnOk result (L.faults library.new ≡ L.faults library.old) }
    ensures none_failed { OnOk result (NoneFailed (L.faults_at library.old) (L.faults_at library.new)) }
    ensures failed { IfErr result (λ e. IfFailed e (Rose (L.faults_at library.old ReadCall name.now) (L.faults_at library.new ReadCall name.now))) }
    ensures files { L.holds library.new ≡ L.holds library.old }
{
    while bytes.len() < size {
        let at = bytes.len();
        let asked = piece.len().min(size - at);
        let count = library.read_at(name, at as u64, &mut piece[..asked])?;
        if count == 0 {
            break;
        }
        bytes.extend_from_slice(&piece[..count])?;
    }
    Ok(())
}
