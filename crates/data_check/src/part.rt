//! Some bytes of a file.

ghost use Rattle.std.specs.Prelude.{◌≡◌, ◌+◌, ◌<◌, ◌^◌, ◌↔◌, ℕ, List, length, IsTrue, IfOk};
ghost use Rattle.edge_traits.specs.Faults.{ReadCall, Counts, CountsAt};
ghost use Rattle.edge_traits.specs.Files.{IsTold};
ghost use Rattle.data_check.specs.Fronts.{HasPart};

use edge_traits::{Failed, Library};

/// How many bytes are read at a time, at most.
const PIECE: usize = 8192;

/// Whether a file has these bytes from a place on. It is read piece by piece.
///
/// # Errors
///
/// `Failed` where the library failed, whose count of faults rose.
pub(crate) fn has_part<L: Library>(
    library: &mut L,
    name: &str,
    off: u64,
    bytes: &[u8],
) -> Result<bool, Failed>
    requires { off + length bytes.now < 2 ^ 64 }
    ensures files { L.holds library.new ≡ L.holds library.old }
    ensures same { IfOk result (λ same. (file : List ℕ) → IsTold (L.holds library.old) name.now file → IsTrue same ↔ HasPart file off bytes.now) }
    ensures cause { Counts (L.faults library.old) (L.faults library.new) result }
    ensures at { CountsAt ReadCall name.now (L.faults_at library.old) (L.faults_at library.new) result }
{
    let mut piece = [0; PIECE];
    let mut done = 0;
    while done < bytes.len() {
        let asked = PIECE.min(bytes.len() - done);
        let count = library.read_at(name, off + done as u64, &mut piece[..asked])?;
        if count == 0 || piece[..count] != bytes[done..done + count] {
            return Ok(false);
        }
        done += count;
    }
    Ok(true)
}
