//! A measure as a line of text.

ghost use Rattle.std.specs.Prelude.{◌≡◌, ◌<◌, ◌+◌, ◌++◌, ◌∷◌, [], codes, IfOk, OnOk, string_bytes};
ghost use Rattle.std.specs.Fmt.{signed_decimal};
ghost use Rattle.nd_stats.specs.Row.{with_commas, comma_list, counts_text, extremes_text, sums_text, moments_text, histogram_text, profiles_text, row};

use itoa::{Buffer, Integer};
use nd_base::{Measure, OutOfMemory};
use std::alloc::{AllocError, Global};

/// Appends a name and a number.
fn push_named<N: Integer>(text: &mut String, name: &str, number: N) -> Result<(), AllocError>
    ensures { OnOk result (string_bytes text.new ≡ string_bytes text.old ++ (name.now ++ N.text number)) }
{
    text.push_str(name)?;
    text.push_str(Buffer::new().format(number))
}

/// Appends a comma and a digit.
fn push_digit(text: &mut String, digit: u8) -> Result<(), AllocError>
    requires { digit < 10 }
    ensures { OnOk result (string_bytes text.new ≡ string_bytes text.old ++ (codes "," ++ (48 + digit) ∷ [])) }
{
    text.push(',')?;
    text.push(char::from(b'0' + digit))
}

/// Appends a comma and a number. Most counts of a histogram have one digit, which needs no buffer.
#[tactic(auto, using(std::proofs::lemmas::Fmt::decimal_digit))]
fn push_next(text: &mut String, number: i64) -> Result<(), AllocError>
    ensures { OnOk result (string_bytes text.new ≡ string_bytes text.old ++ (codes "," ++ signed_decimal number)) }
{
    match u8::try_from(number) {
        Ok(digit @ 0..=9) => push_digit(text, digit),
        _ => push_named(text, ",", number),
    }
}

/// Appends numbers with a comma before each.
fn push_more(text: &mut String, numbers: &[i64]) -> Result<(), AllocError>
    ensures { OnOk result (string_bytes text.new ≡ string_bytes text.old ++ with_commas numbers.now) }
{
    for number in numbers {
        push_next(text, *number)?;
    }
    Ok(())
}

/// Appends numbers with a comma between them.
fn push_numbers(text: &mut String, numbers: &[i64]) -> Result<(), AllocError>
    ensures { OnOk result (string_bytes text.new ≡ string_bytes text.old ++ comma_list numbers.now) }
{
    match numbers {
        [] => Ok(()),
        [first, others @ ..] => {
            push_named(text, "", *first)?;
            push_more(text, others)
        }
    }
}

/// Appends the id and the count.
fn push_counts(text: &mut String, m: &Measure) -> Result<(), AllocError>
    ensures { OnOk result (string_bytes text.new ≡ string_bytes text.old ++ counts_text m.now) }
{
    push_named(text, "", m.id)?;
    push_named(text, " n=", m.n)
}

/// Appends the extremes with their places.
fn push_extremes(text: &mut String, m: &Measure) -> Result<(), AllocError>
    ensures { OnOk result (string_bytes text.new ≡ string_bytes text.old ++ extremes_text m.now) }
{
    push_named(text, " min=", m.min)?;
    push_named(text, "@", m.min_at)?;
    push_named(text, " max=", m.max)?;
    push_named(text, "@", m.max_at)
}

/// Appends the sums over all samples and over the border.
fn push_sums(text: &mut String, m: &Measure) -> Result<(), AllocError>
    ensures { OnOk result (string_bytes text.new ≡ string_bytes text.old ++ sums_text m.now) }
{
    push_named(text, " total=", m.total)?;
    push_named(text, " squares=", m.squares)?;
    push_named(text, " border=", m.border)?;
    push_named(text, "/", m.border_n)
}

/// Appends the sums over the samples that reach the threshold.
fn push_moments(text: &mut String, m: &Measure) -> Result<(), AllocError>
    ensures { OnOk result (string_bytes text.new ≡ string_bytes text.old ++ moments_text m.now) }
{
    push_named(text, " over=", m.over)?;
    push_named(text, " m0=", m.m0)?;
    push_named(text, " mx=", m.mx)?;
    push_named(text, " my=", m.my)
}

/// Appends the histogram, where there is one.
fn push_histogram(text: &mut String, m: &Measure) -> Result<(), AllocError>
    ensures { OnOk result (string_bytes text.new ≡ string_bytes text.old ++ histogram_text m.now) }
{
    let bins = m.bins.as_slice();
    if bins.is_empty() {
        return Ok(());
    }
    push_named(text, " below=", m.below)?;
    text.push_str(" bins=")?;
    push_numbers(text, bins)?;
    push_named(text, " above=", m.above)
}

/// Appends the profiles, where there are some.
fn push_profiles(text: &mut String, m: &Measure) -> Result<(), AllocError>
    ensures { OnOk result (string_bytes text.new ≡ string_bytes text.old ++ profiles_text m.now) }
{
    let x = m.x.as_slice();
    if x.is_empty() {
        return Ok(());
    }
    text.push_str(" x=")?;
    push_numbers(text, x)?;
    text.push_str(" y=")?;
    push_numbers(text, m.y.as_slice())
}

/// How many bytes most lines have at most that have no list.
const ROOM: usize = 256;

/// The line of a measure, with its line end: the id, the numbers with their names, the histogram where there
/// is one, and the profiles where there are some.
///
/// # Errors
///
/// Where memory is refused.
pub fn row_text(alloc: Global, m: &Measure) -> Result<String, OutOfMemory>
    ensures { IfOk result (λ text. string_bytes text ≡ row m.now) }
{
    let mut text = String::with_capacity(alloc, ROOM)?;
    push_counts(&mut text, m)?;
    push_extremes(&mut text, m)?;
    push_sums(&mut text, m)?;
    push_moments(&mut text, m)?;
    push_histogram(&mut text, m)?;
    push_profiles(&mut text, m)?;
    text.push_str("\n")?;
    Ok(text)
}
