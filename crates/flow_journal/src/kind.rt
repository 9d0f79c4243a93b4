//! Which entry a line tells of.

ghost use Rattle.std.specs.Prelude.{◌≡◌};
ghost use Rattle.flow_journal.specs.Reading.{kind_word, kind_in, entry_of, small_at, number_at, flag_at};

use crate::{Entry, Why};

#[derive(Clone, Copy, Debug, PartialEq, Eq)]
pub(crate) enum Kind {
    Load,
    LoadRefused,
    Tick,
    Issue,
    Emit,
    Accept,
    Full,
    Take,
    TakeBlock,
    PoolDrop,
    Put,
    SortDrop,
    Settle,
    Save,
    Saved,
    Close,
    Leave,
    Reclaim,
}

const KINDS: [Kind; 18] = [
    Kind::Load,
    Kind::LoadRefused,
    Kind::Tick,
    Kind::Issue,
    Kind::Emit,
    Kind::Accept,
    Kind::Full,
    Kind::Take,
    Kind::TakeBlock,
    Kind::PoolDrop,
    Kind::Put,
    Kind::SortDrop,
    Kind::Settle,
    Kind::Save,
    Kind::Saved,
    Kind::Close,
    Kind::Leave,
    Kind::Reclaim,
];

/// The number at this place; 0 where there is none.
fn number_at(numbers: &[u64], place: usize) -> u64
    ensures { result ≡ number_at numbers.now place }
{
    numbers.get(place).copied().unwrap_or(0)
}

/// The same in 32 bits, and their greatest number where it is greater.
fn small_at(numbers: &[u64], place: usize) -> u32
    ensures { result ≡ small_at numbers.now place }
{
    number_at(numbers, place).min(u64::from(u32::MAX)) as u32
}

/// Whether the number at this place is 1.
fn flag_at(numbers: &[u64], place: usize) -> bool
    ensures { result ≡ flag_at numbers.now place }
{
    number_at(numbers, place) == 1
}

impl Kind {
    /// The word at the front of a line, with the space behind it.
    fn word(self) -> &'static str
        ensures { result.now ≡ kind_word self }
    {
        match self {
            Kind::Load => "load ",
            Kind::LoadRefused => "loadrefused ",
            Kind::Tick => "tick ",
            Kind::Issue => "issue ",
            Kind::Emit => "emit ",
            Kind::Accept => "accept ",
            Kind::Full => "full ",
            Kind::Take => "take ",
            Kind::TakeBlock => "takeblock ",
            Kind::PoolDrop => "pooldrop ",
            Kind::Put => "put ",
            Kind::SortDrop => "sortdrop ",
            Kind::Settle => "settle ",
            Kind::Save => "save ",
            Kind::Saved => "saved ",
            Kind::Close => "close ",
            Kind::Leave => "leave ",
            Kind::Reclaim => "reclaim ",
        }
    }

    /// The kind whose word stands at the front of the line.
    pub(crate) fn of_line(line: &[u8]) -> Option<Kind>
        ensures { result ≡ kind_in line.now }
    {
        KINDS
            .iter()
            .copied()
            .find(|kind| line.starts_with(kind.word().as_bytes()))
    }

    /// The entry of this kind with these numbers, in the order of its line. A number that isn't there is 0.
    pub(crate) fn entry(self, numbers: &[u64], why: Why) -> Entry
        ensures { result ≡ entry_of self numbers.now why }
    {
        let small = |place: usize| small_at(numbers, place);
        match self {
            Kind::Load => Entry::Load {
                role: small(0),
                index: small(1),
                block: small(2),
                size: small(3),
                fresh: flag_at(numbers, 4),
                given: small(5),
                regrown: flag_at(numbers, 6),
            },
            Kind::LoadRefused => Entry::LoadRefused {
                role: small(0),
                index: small(1),
                need: small(2),
                held: number_at(numbers, 3),
            },
            Kind::Tick => Entry::Tick {
                tick: number_at(numbers, 0),
            },
            Kind::Issue => Entry::Issue {
                role: small(0),
                index: small(1),
            },
            Kind::Emit => Entry::Emit {
                node: small(0),
                maker: small(1),
                index: small(2),
                why,
            },
            Kind::Accept => Entry::Accept {
                node: small(0),
                maker: small(1),
                index: small(2),
            },
            Kind::Full => Entry::Full {
                node: small(0),
                maker: small(1),
                index: small(2),
            },
            Kind::Take => Entry::Take {
                role: small(0),
                node: small(1),
                maker: small(2),
                index: small(3),
            },
            Kind::TakeBlock => Entry::TakeBlock {
                role: small(0),
                node: small(1),
                maker: small(2),
                index: small(3),
                block: small(4),
                size: small(5),
                fresh: flag_at(numbers, 6),
                given: small(7),
                regrown: flag_at(numbers, 8),
            },
            Kind::PoolDrop => Entry::PoolDrop {
                role: small(0),
                node: small(1),
                maker: small(2),
                index: small(3),
                need: small(4),
                held: number_at(numbers, 5),
            },
            Kind::Put => Entry::Put {
                role: small(0),
                node: small(1),
                maker: small(2),
                index: small(3),
                fired: flag_at(numbers, 4),
            },
            Kind::SortDrop => Entry::SortDrop {
                node: small(0),
                maker: small(1),
                index: small(2),
            },
            Kind::Settle => Entry::Settle {
                role: small(0),
                node: small(1),
            },
            Kind::Save => Entry::Save {
                role: small(0),
                node: small(1),
                maker: small(2),
                index: small(3),
                group: small(4),
            },
            Kind::Saved => Entry::Saved {
                role: small(0),
                node: small(1),
                maker: small(2),
                index: small(3),
            },
            Kind::Close => Entry::Close { role: small(0) },
            Kind::Leave => Entry::Leave { role: small(0) },
            Kind::Reclaim => Entry::Reclaim { role: small(0) },
        }
    }
}
