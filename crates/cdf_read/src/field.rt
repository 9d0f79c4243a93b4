//! Fields of a file, each read from the front of the bytes that are left.

ghost use Rattle.std.specs.Prelude.{◌≡◌, ◌<◌, ◌^◌};
ghost use Rattle.cdf_read.specs.Fields.{padded};
ghost use Rattle.cdf_read.specs.FieldReading.{Finds, free_in, word_in, double_word_in};

/// What a netCDF classic file of form `Classic` begins with.
pub(crate) const CLASSIC_MAGIC: &[u8] = b"CDF\x01";

/// What a netCDF classic file of form `Wide` begins with.
pub(crate) const WIDE_MAGIC: &[u8] = b"CDF\x02";

/// So many bytes raised to a multiple of 4.
pub(crate) fn padded_to_word(count: usize) -> usize
    requires { count < 2 ^ 62 }
    ensures { result ≡ padded count }
{
    (count + 3) / 4 * 4
}

/// So many bytes, and what follows them.
pub(crate) fn read_free(rest: &[u8], count: usize) -> Option<(&[u8], &[u8])>
    ensures { Finds (λ field. (field.0.now, field.1.now)) result (free_in count rest.now) }
{
    rest.split_at_checked(count)
}

/// A word of four bytes, the most significant first, and what follows it.
pub(crate) fn read_word(rest: &[u8]) -> Option<(u32, &[u8])>
    ensures { Finds (λ field. (field.0, field.1.now)) result (word_in rest.now) }
{
    let (word, rest) = rest.split_first_chunk::<4>()?;
    Some((u32::from_be_bytes(*word), rest))
}

/// A double word of eight bytes, the most significant first, and what follows it.
pub(crate) fn read_double_word(rest: &[u8]) -> Option<(u64, &[u8])>
    ensures { Finds (λ field. (field.0, field.1.now)) result (double_word_in rest.now) }
{
    let (word, rest) = rest.split_first_chunk::<8>()?;
    Some((u64::from_be_bytes(*word), rest))
}
