//! Groups of the pieces that a node saves.

ghost use Rattle.std.specs.Prelude.{◌≡◌, ◌≤◌};
ghost use Rattle.board_rules.specs.Saving.{is_whole_group, size_of_group};

/// Whether the last array of the group of the piece after so many others was put.
pub fn is_whole_group(count: u32, saved: u32, put: u32) -> bool
    requires some { 1 ≤ count }
    requires fits { count ≤ 65536 }
    requires few { saved ≤ 65536 }
    ensures { result ≡ is_whole_group count saved put }
{
    (saved / count + 1) * count <= put
}

/// How many arrays the group of the piece after so many others has: `count` once the last one was put, else those that were put,
/// once the node is settled.
pub fn size_of_group(count: u32, saved: u32, settled: bool, put: u32) -> Option<u32>
    requires some { 1 ≤ count }
    requires fits { count ≤ 65536 }
    requires few { saved ≤ 65536 }
    ensures { result ≡ size_of_group count saved settled put }
{
    if is_whole_group(count, saved, put) {
        return Some(count);
    }
    if settled {
        return Some(put.saturating_sub(saved / count * count));
    }
    None
}
