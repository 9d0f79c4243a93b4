//! The other facts of a log that are kept.

ghost use Rattle.std.specs.Prelude.{◌≡◌, []};
ghost use Rattle.course_parts.specs.Facts.{facts_of};

/// What stands after the entries so far, besides nodes, roles and blocks.
#[derive(Clone, Copy, Debug, PartialEq, Eq)]
pub struct Facts {
    /// How many frames were offered.
    pub offered: u32,
    /// A frame is loaded and not issued yet.
    pub loaded: bool,
    pub closed: bool,
    /// Some role has left.
    pub left: bool,
    /// The tick that is kept.
    pub tick: u64,
    /// How many arrays came to nodes.
    pub came: u64,
    /// How many of them a node dropped.
    pub dropped: u64,
    /// How many pieces came back.
    pub saved: u64,
}

impl Facts {
    /// What stands before any entry.
    pub fn none() -> Facts
        ensures { result ≡ facts_of [] }
    {
        Facts {
            offered: 0,
            loaded: false,
            closed: false,
            left: false,
            tick: 0,
            came: 0,
            dropped: 0,
            saved: 0,
        }
    }
}
