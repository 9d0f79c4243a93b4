//! Files to read, as they were handed in.

ghost use Rattle.std.specs.Prelude.{◌≡◌, ◌-◌, length, take, drop, min, map, string_bytes};
ghost use Rattle.std.specs.Option.{option_copied};
ghost use Rattle.edge_traits.specs.Memory.{find_file};

use std::marker::Model;

/// Names with their bytes. Of two files with one name the first is the one found.
#[derive(Drop)]
pub struct FileList {
    files: Vec<(String, Vec<u8>)>,
}

impl Model for FileList {
    ghost use Rattle.std.specs.Prelude.{List, map, string_bytes};
    ghost use Rattle.edge_traits.specs.Memory.{NamedFile};

    ghost Value = { List NamedFile };

    ghost view = { λ s. map (λ f. (string_bytes f.0, f.1.items)) s.files.items };
}

impl FileList {
    pub fn new(files: Vec<(String, Vec<u8>)>) -> FileList
        ensures { result ≡ map (λ f. (string_bytes f.0, f.1.items)) files.items }
    {
        FileList { files }
    }

    /// The bytes of the first file of a name.
    pub fn find(&self, name: &str) -> Option<&[u8]>
        ensures { option_copied result ≡ find_file self.now name.now }
    {
        for (held, bytes) in &self.files {
            if held.as_str() == name {
                return Some(bytes.as_slice());
            }
        }
        None
    }
}

/// Writes bytes of a file from `off` on into the front of `buf`, as many as there are and fit.
pub fn read_part(file: &[u8], off: u64, buf: &mut [u8]) -> usize
    ensures count { result ≡ min (length buf.old) (length file.now - off) }
    ensures front { take result buf.new ≡ take result (drop off file.now) }
    ensures rest { drop result buf.new ≡ drop result buf.old }
{
    let start = off.min(file.len() as u64) as usize;
    let left = &file[start..];
    let count = left.len().min(buf.len());
    buf[..count].copy_from_slice(&left[..count]);
    count
}
